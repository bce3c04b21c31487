//! The rule of a view: what its readers have met is always a prefix of what is published.
//!
//! A token is carried by a reader or the publisher, and knows a list. There are two kinds of step,
//! to publish and to enter; after either, the token knows what is published.

use crate::view::View;
use crossbeam_utils::rule::{Outcome, Protocol};
use left_right::{reader, writer};
use zk_table::Txn;

/// The list that a token knows. It has no values; a clause reads an array as a list of any length.
pub(crate) type Known = [Txn; 0];

/// The rule.
pub(crate) struct Growing;

impl Protocol<View, Known> for Growing {
    ghost use Rattle.std.specs.Prelude.{[]};
    ghost use Rattle.zk_views.specs.Views.{BeginsWithAll};

    ghost holds = { BeginsWithAll };

    ghost first = { [] };
}

/// To publish.
pub(crate) struct Publish;

impl Outcome<View, Known> for Publish {
    ghost use Rattle.zk_views.specs.Views.{Publishes};

    ghost then = { Publishes };
}

/// To enter.
pub(crate) struct Enter;

impl Outcome<View, Known> for Enter {
    ghost use Rattle.zk_views.specs.Views.{Enters};

    ghost then = { Enters };
}

/// The publisher's end.
pub(crate) type ViewWriter = writer::Writer<View, Txn, Known, Growing>;

/// A reader's end.
pub(crate) type ViewReader = reader::Reader<View, Known, Growing>;
