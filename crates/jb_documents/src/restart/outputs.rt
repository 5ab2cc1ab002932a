//! What the writers of a step held when it stopped.

use jb_base::{Listed, PackedList};
use std::marker::Model;

/// The texts that a partition's writer held, in order. Contracts see their bytes.
#[derive(Drop)]
pub struct WriterTexts {
    list: PackedList,
}

impl Model for WriterTexts {
    ghost use Rattle.std.specs.Prelude.{ℕ, List};

    ghost Value = { List (List ℕ) };

    ghost view = { λ t. t.list };
}

impl WriterTexts {
    ghost use Rattle.std.specs.Prelude.{◌≡◌};

    /// The list of these texts, whose memory it keeps.
    pub fn new(list: PackedList) -> WriterTexts
        ensures { result ≡ list }
    {
        WriterTexts { list }
    }

    /// The texts, in order.
    pub fn as_list(&self) -> &PackedList
        ensures { result.now ≡ self.now }
    {
        &self.list
    }

    /// The texts, by value. Takes no memory.
    pub fn into_list(self) -> PackedList
        ensures { result ≡ self }
    {
        let WriterTexts { list } = self;
        list
    }
}

/// The texts of each partition's writer, by place.
pub type Outputs = Listed<WriterTexts>;
