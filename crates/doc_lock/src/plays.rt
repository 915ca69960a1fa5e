//! The rule of the lock's table, and what each kind of step tells the seat that takes it.

use crate::guarded::Guarded;
use crate::view::View;
use atomic_table::{Join, Play, Split, TableRule};
use std::marker::PhantomData;

pub struct Rule<S> {
    state: PhantomData<S>,
}

impl<S: Guarded> TableRule<Option<S>, View<S::Entry, S::Origin>, ()> for Rule<S> {
    ghost use Rattle.doc_lock.specs.Kept.{Kept};
    ghost use Rattle.doc_lock.specs.Views.{beginning};

    ghost holds = { λ _. Kept S.list S.author S.origin };

    ghost first = { λ _. beginning };
}

/// Seat 0 takes the empty slot.
pub(crate) struct Take;

impl<S, E, O> Play<Option<S>, View<E, O>> for Take {
    ghost use Rattle.doc_lock.specs.Views.{taken};

    ghost then = { taken };
}

/// A seat is split off.
pub(crate) struct Cut;

impl<E, O> Split<View<E, O>> for Cut {
    ghost use Rattle.doc_lock.specs.Views.{splitting, split_off};

    ghost left = { splitting };

    ghost right = { split_off };
}

/// A seat is joined into another.
pub(crate) struct Glue;

impl<E, O> Join<View<E, O>> for Glue {
    ghost use Rattle.doc_lock.specs.Views.{joining, spent};

    ghost both = { joining };

    ghost spent = { spent };
}

/// The flag is tried.
pub(crate) struct Try<S> {
    state: PhantomData<S>,
}

impl<S: Guarded> Play<Option<S>, View<S::Entry, S::Origin>> for Try<S> {
    ghost use Rattle.doc_lock.specs.Views.{tried};

    ghost then = { tried S.list S.author S.origin };
}

/// The length is published.
pub(crate) struct Publish<S> {
    state: PhantomData<S>,
}

impl<S: Guarded> Play<Option<S>, View<S::Entry, S::Origin>> for Publish<S> {
    ghost use Rattle.doc_lock.specs.Views.{published};

    ghost then = { published S.list S.author };
}

/// The flag is freed, and the slot goes home.
pub(crate) struct Free<S> {
    state: PhantomData<S>,
}

impl<S: Guarded> Play<Option<S>, View<S::Entry, S::Origin>> for Free<S> {
    ghost use Rattle.doc_lock.specs.Views.{freed};

    ghost then = { freed S.origin };
}

/// The length is looked at.
pub(crate) struct Look;

impl<S, E, O> Play<Option<S>, View<E, O>> for Look {
    ghost use Rattle.doc_lock.specs.Views.{looked};

    ghost then = { looked };
}
