use super::*;
use std::alloc::Global;
use std::test::Fail;

/// Sentences, each with its kind.
const KINDS: [(&[u8], Kind); 9] = [
    (b"Parameter A : Prop.", Kind::Plain),
    (b"Definition d (x : T) : Prop := x = x.", Kind::Plain),
    (b"Lemma a : A -> A.", Kind::Begin),
    (b"Proof.", Kind::Inner),
    (b"intro h.", Kind::Inner),
    (b"--", Kind::Inner),
    (b"{", Kind::Inner),
    (b"}", Kind::Inner),
    (b"Abort.", Kind::Close(Closer::Abort)),
];

#[test]
fn sentences_are_read(rt: HostRuntime) -> Result<(), Fail> {
    for (text, kind) in KINDS {
        assert!(rt; is_read(rt.alloc(), text, kind));
    }
    Ok(())
}

fn is_read(alloc: Global, text: &[u8], kind: Kind) -> bool {
    if text.len() > 65536 {
        return false;
    }
    match Sentence::read(alloc, text) {
        Ok(sentence) => match sentence.copy() {
            Ok(copy) => copy.bytes() == text && copy.kind() == kind,
            Err(_) => false,
        },
        Err(_) => false,
    }
}

/// No sentences, each with the offset of its fault: a full stop that can't stand there, a token that can't, and the end.
const FAULTS: [(&[u8], u64); 3] = [
    (b"Axiom a : A -> B /\\ .", 20),
    (b"Lemma forall.", 6),
    (b"Parameter A", 11),
];

#[test]
fn faults_are_at_the_first_wrong_token(rt: HostRuntime) -> Result<(), Fail> {
    for (text, place) in FAULTS {
        assert!(rt; is_fault_at(rt.alloc(), text, place));
    }
    Ok(())
}

fn is_fault_at(alloc: Global, text: &[u8], place: u64) -> bool {
    if text.len() > 65536 {
        return false;
    }
    match Sentence::read(alloc, text) {
        Err(ParseFault::At(offset)) => offset == place,
        _ => false,
    }
}
