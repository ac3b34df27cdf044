//! The places of what stands apart, which is kept once where it is the last one.
ghost use Rattle.std.specs.Prelude.{◌≡◌, ◌<◌, ◌≤◌, ◌-◌, length, IfOk, IsTrue};
ghost use Rattle.qc_config.specs.Val as val;
ghost use Rattle.qc_trail.specs.Told.{GrowsTo, HasText, HasTuple, name_at, text_at, tuple_at, tuple_told};

use crate::appending::append;
use crate::brief::BriefTuple;
use crate::lists::Lists;
use qc_event::{Config, Label, Name, Tuple, Val};
use std::alloc::AllocError;

// Whether a value is a number.
fn is_number(value: &Val, number: u64) -> bool
    ensures { IsTrue result → value.now ≡ val.Number number }
{
    match value.as_number() {
        Some(there) => there == number,
        None => false,
    }
}

// Whether these are a tuple's parts but its value.
fn has_rest(tuple: &Tuple, version: u64, generation: u64, config: &Config) -> bool
    ensures version { IsTrue result → version ≡ tuple.now.version }
    ensures generation { IsTrue result → generation ≡ tuple.now.generation }
    ensures config { IsTrue result → config.now ≡ tuple.now.config }
{
    version == tuple.version && generation == tuple.generation && *config == tuple.config
}

impl Lists {
    // Whether a name stands at a place.
    fn has_name(&self, at: u32, name: &Name) -> bool
        ensures { IsTrue result → (at < length self.now.names) × (name_at self.now at ≡ name.now) }
    {
        match self.names.get(at as usize) {
            Some(there) => there == name,
            None => false,
        }
    }

    /// The place of a name: the one that is told, where it stands there, or that of a new one.
    pub(crate) fn place_of(&mut self, name: &Name, place: Option<u32>) -> Result<u32, AllocError>
        ensures grows { GrowsTo self.old self.new }
        ensures within { IfOk result (λ at. at < length self.new.names) }
        ensures there { IfOk result (λ at. name_at self.new at ≡ name.now) }
    {
        if let Some(at) = place {
            if self.has_name(at, name) {
                return Ok(at);
            }
        }
        append(&mut self.names, *name)
    }

    // Whether the bytes are the last text.
    fn ends_with_text(&self, text: &[u8]) -> bool
        requires { length text.now ≤ val.longest }
        ensures { IsTrue result → (0 < length self.now.texts)
            × (text_at self.now (length self.now.texts - 1) ≡ val.Text text.now) }
    {
        match self.texts.last() {
            Some(last) => last.as_bytes() == text,
            None => false,
        }
    }

    /// The place of a text: that of the last one, where it is the same, or that of a new one.
    pub(crate) fn place_of_text(&mut self, text: &[u8]) -> Result<u32, AllocError>
        requires { length text.now ≤ val.longest }
        ensures grows { GrowsTo self.old self.new }
        ensures within { IfOk result (λ at. at < length self.new.texts) }
        ensures there { IfOk result (λ at. text_at self.new at ≡ val.Text text.now) }
    {
        if self.ends_with_text(text) {
            if let Ok(at) = u32::try_from(self.texts.len() - 1) {
                return Ok(at);
            }
        }
        let alloc = *self.texts.allocator();
        append(&mut self.texts, Label::new(alloc, text)?)
    }

    // Whether a value is the text at a place.
    fn has_text(&self, at: u32, value: &Val) -> bool
        ensures { IsTrue result → (at < length self.now.texts) × (text_at self.now at ≡ value.now) }
    {
        let Some(text) = value.as_text() else {
            return false;
        };
        match self.texts.get(at as usize) {
            Some(there) => there.as_bytes() == text,
            None => false,
        }
    }

    // Whether a tuple in brief tells a tuple.
    fn is_brief_of(&self, brief: &BriefTuple, tuple: &Tuple) -> bool
        ensures { IsTrue result → HasText self.now brief.now
            × (tuple_told self.now brief.now ≡ tuple.now) }
    {
        match brief {
            BriefTuple::Number {
                version,
                number,
                generation,
                config,
            } => {
                has_rest(tuple, *version, *generation, config) && is_number(&tuple.value, *number)
            }
            BriefTuple::Text {
                version,
                text,
                generation,
                config,
            } => {
                has_rest(tuple, *version, *generation, config) && self.has_text(*text, &tuple.value)
            }
        }
    }

    // Whether a tuple is the last one.
    fn ends_with(&self, tuple: &Tuple) -> bool
        ensures { IsTrue result → (0 < length self.now.tuples)
            × HasTuple self.now (length self.now.tuples - 1)
            × (tuple_at self.now (length self.now.tuples - 1) ≡ tuple.now) }
    {
        match self.tuples.last() {
            Some(last) => self.is_brief_of(last, tuple),
            None => false,
        }
    }

    // A tuple in brief.
    fn brief_of(&mut self, tuple: &Tuple) -> Result<BriefTuple, AllocError>
        ensures grows { GrowsTo self.old self.new }
        ensures has { IfOk result (λ brief. HasText self.new brief) }
        ensures told { IfOk result (λ brief. tuple_told self.new brief ≡ tuple.now) }
    {
        let (version, generation, config) = (tuple.version, tuple.generation, tuple.config);
        match tuple.value.as_text() {
            Some(text) => Ok(BriefTuple::Text {
                version,
                text: self.place_of_text(text)?,
                generation,
                config,
            }),
            None => Ok(BriefTuple::Number {
                version,
                number: tuple.value.as_number().unwrap_or(0),
                generation,
                config,
            }),
        }
    }

    /// The place of a tuple: that of the last one, where it is the same, or that of a new one.
    pub(crate) fn place_of_tuple(&mut self, tuple: &Tuple) -> Result<u32, AllocError>
        ensures grows { GrowsTo self.old self.new }
        ensures has { IfOk result (λ at. HasTuple self.new at) }
        ensures there { IfOk result (λ at. tuple_at self.new at ≡ tuple.now) }
    {
        if self.ends_with(tuple) {
            if let Ok(at) = u32::try_from(self.tuples.len() - 1) {
                return Ok(at);
            }
        }
        let brief = self.brief_of(tuple)?;
        append(&mut self.tuples, brief)
    }
}
