use super::*;
use base_core::SparedSequence;
use serapi_ans::Exn;
use std::alloc::Global;
use std::test::Fail;
use vern_step::Sentence;

/// What becomes of the sentence of these bytes; None where they are none, or where memory is wanting.
fn tried(alloc: Global, store: &mut Store, bytes: &[u8]) -> Option<Tried> {
    if bytes.len() > 65536 {
        return None;
    }
    match Sentence::read(alloc, bytes) {
        Ok(sentence) => store.attempt(0, sentence).ok(),
        Err(_) => None,
    }
}

/// Whether a sentence was added with this id, and closed a zone where a tip is told.
fn is_added(alloc: Global, store: &mut Store, bytes: &[u8], id: u64, tip: Option<u64>) -> bool {
    match tried(alloc, store, bytes) {
        Some(Tried::Added(given, told)) => given == id && told == tip,
        _ => false,
    }
}

/// A declaration and a proof, with the id of each sentence.
const SCRIPT: [(&[u8], u64); 7] = [
    (b"Parameter A : Prop.", 2),
    (b"Lemma a : A -> A.", 3),
    (b"Proof.", 4),
    (b"intro h.", 5),
    (b"exact h.", 6),
    (b"Qed.", 7),
    (b"Parameter B : Prop.", 8),
];

fn is_script(alloc: Global, store: &mut Store) -> bool {
    for (bytes, id) in SCRIPT {
        if !is_added(alloc, store, bytes, id, None) {
            return false;
        }
    }
    true
}

#[test]
fn a_proof_is_opened_again_and_closed(rt: HostRuntime) -> Result<(), Fail> {
    let alloc = rt.alloc();
    let mut store = Store::new(alloc, 9)?;
    assert!(rt; is_script(alloc, &mut store));
    assert_eq!(rt; store.cursor(), 8);
    let mut gone = SparedSequence::new(alloc);
    gone.reserve(store.len())?;
    assert!(rt;
        matches!(
            store.remove(5, &mut gone),
            Removal::Removed(Edited::Focus(3, 7, 8))
        )
    );
    assert_eq!(rt; gone.as_slice(), [5, 6].as_slice());
    assert_eq!(rt; store.cursor(), 4);
    assert!(rt; matches!(store.remove(7, &mut gone), Removal::Refused(7)));
    assert!(rt; matches!(store.remove(5, &mut gone), Removal::Unknown));
    assert!(rt;
        matches!(
            tried(alloc, &mut store, b"Defined."),
            Some(Tried::Refused(Exn::BadCloser(0, 7)))
        )
    );
    assert!(rt;
        matches!(
            tried(alloc, &mut store, b"Parameter C : Prop."),
            Some(Tried::Refused(Exn::ProofOpen(0, 3)))
        )
    );
    assert!(rt; is_added(alloc, &mut store, b"intro h.", 9, None));
    assert!(rt; is_added(alloc, &mut store, b"assumption.", 10, None));
    assert!(rt; is_added(alloc, &mut store, b"Admitted.", 7, Some(8)));
    assert_eq!(rt; store.line()?.as_slice(), [2, 3, 4, 9, 10, 7, 8].as_slice());
    Ok(())
}

#[test]
fn what_lives_is_read(rt: HostRuntime) -> Result<(), Fail> {
    let alloc = rt.alloc();
    let mut store = Store::new(alloc, 2)?;
    assert!(rt;
        matches!(
            tried(alloc, &mut store, b"Qed."),
            Some(Tried::Refused(Exn::NoOpenProof(0)))
        )
    );
    assert!(rt; is_added(alloc, &mut store, b"Parameter A : Prop.", 2, None));
    assert!(rt; is_added(alloc, &mut store, b"Parameter A : Set.", 3, None));
    assert!(rt;
        matches!(
            tried(alloc, &mut store, b"Parameter B : Prop."),
            Some(Tried::Refused(Exn::TooMany(0)))
        )
    );
    assert!(rt; store.is_full());
    assert_eq!(rt; store.tip(), 3);
    assert!(rt; store.is_state(1));
    assert!(rt; !store.is_state(4));
    let kept = match store.entry(3) {
        Some(slot) => !slot.told
            && slot.text.is_none()
            && slot.sentence.bytes() == b"Parameter A : Set.".as_slice(),
        None => false,
    };
    assert!(rt; kept);
    Ok(())
}
