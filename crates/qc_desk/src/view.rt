//! What a pass knows, and the steps that change it.

// What a seat of a desk knows.
use atomic_table::{Join, Play, Split, TableRule};
use qc_event::Entry;
use std::collections::LinkedList;

/// What a pass knows. No value of it is made.
pub struct View {
    pub live: bool,
    pub rules: bool,
    pub number: u32,
    pub seen: LinkedList<Entry>,
    pub all: LinkedList<Entry>,
    pub mine: LinkedList<Entry>,
    pub flight: LinkedList<Entry>,
    pub out: LinkedList<u32>,
    pub kin: LinkedList<(u32, LinkedList<Entry>)>,
    pub count: u32,
    pub drawn: Option<u32>,
}

/// The rule of a desk.
pub struct OneHistory;

impl TableRule<Entry, View, ()> for OneHistory {
    ghost use Rattle.qc_desk.specs.Rules.{Kept, first_of_all};

    ghost holds = { λ _ s. Kept s };

    ghost first = { λ _. first_of_all };
}

/// The step that appends.
pub struct Appending;

impl Play<Entry, View> for Appending {
    ghost use Rattle.qc_desk.specs.Rules.{Posts};

    ghost then = { Posts };
}

/// The step with which the caller takes the entry in flight.
pub struct Taking;

impl Play<Entry, View> for Taking {
    ghost use Rattle.qc_desk.specs.Rules.{Takes};

    ghost then = { Takes };
}

/// The step that looks at the history.
pub struct Looking;

impl Play<Entry, View> for Looking {
    ghost use Rattle.qc_desk.specs.Rules.{Looks};

    ghost then = { Looks };
}

/// The step with which the first pass closes.
pub struct Settling;

impl Play<Entry, View> for Settling {
    ghost use Rattle.qc_desk.specs.Rules.{Settles};

    ghost then = { Settles };
}

/// The step with which a pass looks whether its numbers are apart.
pub struct Knowing;

impl Play<Entry, View> for Knowing {
    ghost use Rattle.qc_desk.specs.Rules.{Knows};

    ghost then = { Knows };
}

/// The step that draws a number.
pub struct Drawing;

impl Play<Entry, View> for Drawing {
    ghost use Rattle.qc_desk.specs.Rules.{Draws};

    ghost then = { Draws };
}

/// The step with which the first pass looks at its next number.
pub struct Unused;

impl Play<Entry, View> for Unused {
    ghost use Rattle.qc_desk.specs.Rules.{Counting};

    ghost then = { Counting };
}

/// The right to append is cut off from the seat that had it.
pub struct Cut;

impl Split<View> for Cut {
    ghost use Rattle.qc_desk.specs.Rules.{spent};

    ghost left = { λ v. spent };

    ghost right = { λ v. v };
}

/// The right to append is lent to a pass, and given back.
pub struct Lends;

impl Join<View> for Lends {
    ghost use Rattle.qc_desk.specs.Rules.{lent, spent};

    ghost both = { lent };

    ghost spent = { spent };
}

impl Split<View> for Lends {
    ghost use Rattle.qc_desk.specs.Rules.{returned, right_of};

    ghost left = { returned };

    ghost right = { right_of };
}

/// A pass gives away the number that it drew.
pub struct Gives;

impl Split<View> for Gives {
    ghost use Rattle.qc_desk.specs.Rules.{gave, given};

    ghost left = { gave };

    ghost right = { given };
}

/// A first split of the first pass.
pub struct Counts;

impl Split<View> for Counts {
    ghost use Rattle.qc_desk.specs.Rules.{counted, next_of};

    ghost left = { counted };

    ghost right = { next_of };
}

/// A note is split off or joined.
pub struct Notes;

impl Split<View> for Notes {
    ghost use Rattle.qc_desk.specs.Rules.{noted};

    ghost left = { λ v. v };

    ghost right = { noted };
}

impl Join<View> for Notes {
    ghost use Rattle.qc_desk.specs.Rules.{told, spent};

    ghost both = { told };

    ghost spent = { spent };
}

/// A pass is joined.
pub struct Joining;

impl Join<View> for Joining {
    ghost use Rattle.qc_desk.specs.Rules.{joined, spent};

    ghost both = { joined };

    ghost spent = { spent };
}
