//! Who answers requests.
ghost use Rattle.std.specs.Prelude.{◌≡◌, Bool, false, length};
ghost use Rattle.doc_theory.specs.Histories.{IsNumbered};
ghost use Rattle.session_run.specs.Items.{Requests, has_quit};
ghost use Rattle.session_run.specs.Serving.{Takes, Unless};

use serapi_cmd::Request;
use std::alloc::Global;

/// Why no more was answered.
#[derive(Clone, Copy, Debug, PartialEq, Eq)]
pub(crate) enum Loss {
    /// A write failed.
    WriteFault,
    /// Memory was wanting outside of a request's own work.
    WantOfMemory,
}

/// How far the requests were answered.
#[derive(Clone, Copy, Debug, PartialEq, Eq)]
pub(crate) enum Answered {
    /// All that there are so far, without a Quit.
    More,
    /// All up to and with Quit.
    Quit,
    /// No more could be answered.
    Lost(Loss),
}

/// Who answers requests, one after another, and then ends. What a party answers to stands in its own type; the
/// serving loop knows the requests alone.
pub(crate) trait Party {
    /// The requests that it answered so far.
    ghost asked: { Self → Requests };

    /// The last of these was left without its end.
    ghost left: { Self → Bool };

    /// It may be asked, and may end.
    ghost ready: { Self → Type 0 };

    /// No write has failed, as far as it can know.
    ghost clean: { Self → Type 0 };

    /// It has ended.
    ghost ended: { Self → Type 0 };

    /// The second is the first, later.
    ghost goes_on: { Self → Self → Type 0 };

    /// The number of the next request, counted from 0.
    fn next_number(&self) -> u64
        requires ready { ready self.now }
        ensures { result ≡ length (asked self.now) };

    /// Answers a request and looks for a write fault.
    fn answer(&mut self, alloc: Global, request: Request) -> Answered
        requires ready { ready self.old }
        requires going { has_quit (asked self.old) ≡ false }
        requires whole { left self.old ≡ false }
        requires numbered { IsNumbered (length (asked self.old)) request }
        ensures takes { Takes result (asked self.old) request (asked self.new) (left self.new) }
        ensures clean { Unless result (clean self.new) }
        ensures ready { ready self.new }
        ensures goes_on { goes_on self.old self.new };

    /// Ends, without memory.
    fn end(&mut self)
        requires ready { ready self.old }
        ensures ended { ended self.new }
        ensures asked { asked self.new ≡ asked self.old }
        ensures left { left self.new ≡ left self.old }
        ensures clean { clean self.old → clean self.new }
        ensures goes_on { goes_on self.old self.new };

    ghost stays: { (p : Self) → goes_on p p };

    ghost joins: { (p q r : Self) → goes_on p q → goes_on q r → goes_on p r };
}
