//! Texts of verdicts, typed by hand from the rules.
use super::*;
use std::test::Fail;
use vern_lex::Span;

const PART: Span = Span { from: 26, to: 27 };

const TEXTS: [(Verdict, &'static str); 15] = [
    (Verdict::Good, ""),
    (
        Verdict::Fault(Fault::UnknownName(PART)),
        "unknown name at 26-27",
    ),
    (
        Verdict::Fault(Fault::WrongKind(PART)),
        "wrong kind at 26-27",
    ),
    (
        Verdict::Fault(Fault::WrongSort(PART)),
        "wrong sort at 26-27",
    ),
    (
        Verdict::Fault(Fault::WrongArity(PART)),
        "wrong arity at 26-27",
    ),
    (
        Verdict::Fault(Fault::AlreadyDeclared(PART)),
        "already declared at 26-27",
    ),
    (
        Verdict::Fault(Fault::TooLarge(131_071, 17)),
        "too large: 131071 nodes, height 17",
    ),
    (Verdict::Fault(Fault::NoGoal), "no goal"),
    (Verdict::Fault(Fault::NoSuchHyp), "no such hypothesis"),
    (Verdict::Fault(Fault::NotOfForm), "not of this form"),
    (Verdict::Fault(Fault::CannotMatch), "cannot match"),
    (Verdict::Fault(Fault::NameTaken), "name taken"),
    (Verdict::Fault(Fault::BadBullet), "wrong bullet"),
    (Verdict::Fault(Fault::Unfinished(1)), "1 goals left"),
    (Verdict::Blocked(7), "blocked by 7"),
];

#[test]
fn verdicts_have_their_texts(rt: HostRuntime) -> Result<(), Fail> {
    for (verdict, text) in TEXTS {
        assert_eq!(rt;
            verdict_text(rt.alloc(), &verdict)?.as_slice(),
            text.as_bytes()
        );
    }
    Ok(())
}
