//! Fields behind bytes, in the current format. Of the bytes nothing is known behind an error.
ghost use Rattle.std.specs.Prelude.{◌≡◌, ◌<◌, ◌≤◌, length, OnOk};
ghost use Rattle.qc_codec.specs.Fields as field;
ghost use Rattle.qc_codec.specs.Fields.{current, current_format, IsNumbered};
ghost use Rattle.qc_codec.specs.Gives.{Puts};

use qc_config::{Config, Tuple, Val};
use qc_event::Name;
use std::alloc::AllocError;

/// Writes a number of two bytes behind bytes, the higher first.
#[tactic(auto, unfolding(crate::specs::Fields::half))]
pub fn put_half(out: &mut Vec<u8>, number: u16) -> Result<(), AllocError>
    ensures { Puts field.half number result out.old.items out.new.items }
{
    out.extend_from_slice(&number.to_be_bytes())
}

/// Writes a number of four bytes behind bytes, the highest first.
#[tactic(auto, unfolding(crate::specs::Fields::word))]
pub fn put_word(out: &mut Vec<u8>, number: u32) -> Result<(), AllocError>
    ensures { Puts field.word number result out.old.items out.new.items }
{
    out.extend_from_slice(&number.to_be_bytes())
}

/// Writes a number of eight bytes behind bytes, the highest first.
#[tactic(auto, unfolding(crate::specs::Fields::long))]
pub fn put_long(out: &mut Vec<u8>, number: u64) -> Result<(), AllocError>
    ensures { Puts field.long number result out.old.items out.new.items }
{
    out.extend_from_slice(&number.to_be_bytes())
}

/// Writes a value behind bytes.
#[tactic(auto, unfolding(crate::specs::Fields::datum, crate::specs::Fields::number_datum, crate::specs::Fields::text_datum))]
pub fn put_value(out: &mut Vec<u8>, value: &Val) -> Result<(), AllocError>
    ensures written { Puts (field.datum current_format) value.now result
        out.old.items out.new.items }
    ensures fits { (field.datum current_format).fits value.now }
{
    match value.as_text() {
        Some(text) => {
            out.push(1)?;
            put_half(out, text.len() as u16)?;
            out.extend_from_slice(text)
        }
        None => {
            out.push(0)?;
            put_long(out, value.as_number().unwrap_or(0))
        }
    }
}

/// Writes a configuration for so many copies behind bytes.
#[tactic(auto, unfolding(crate::specs::Fields::config))]
pub fn put_config(out: &mut Vec<u8>, copies: u8, config: &Config) -> Result<(), AllocError>
    requires copies { copies ≤ 16 }
    requires same { length config.now.votes ≡ copies }
    ensures written { Puts (field.config (current copies)) config.now result
        out.old.items out.new.items }
    ensures fits { OnOk result (0 < copies → (field.config (current copies)).fits config.now) }
{
    out.push(config.count() as u8)?;
    for copy in 0..copies {
        out.push(config.votes(copy))?;
    }
    put_half(out, config.read())?;
    put_half(out, config.write())
}

/// Writes a tuple, whose configuration is for so many copies, behind bytes.
#[tactic(auto, unfolding(crate::specs::Fields::tuple))]
pub fn put_tuple(out: &mut Vec<u8>, copies: u8, tuple: &Tuple) -> Result<(), AllocError>
    requires copies { copies ≤ 16 }
    requires same { length tuple.now.config.votes ≡ copies }
    ensures written { Puts (field.tuple (current copies)) tuple.now result
        out.old.items out.new.items }
    ensures fits { OnOk result (0 < copies → (field.tuple (current copies)).fits tuple.now) }
{
    put_long(out, tuple.version)?;
    put_value(out, &tuple.value)?;
    put_long(out, tuple.generation)?;
    put_config(out, copies, &tuple.config)
}

/// Writes a name, of at least one number, behind bytes. Its spelling is the same whatever least length a reader wants.
#[tactic(auto, unfolding(crate::specs::Fields::name))]
pub fn put_name(out: &mut Vec<u8>, name: &Name) -> Result<(), AllocError>
    requires { 0 < length name.now }
    ensures written { Puts (field.name 1) name.now result out.old.items out.new.items }
    ensures fits { OnOk result (IsNumbered name.now → (field.name 1).fits name.now) }
{
    out.push(name.len() as u8)?;
    put_long(out, name.number(0).unwrap_or(0))?;
    for number in name.rest() {
        put_word(out, *number)?;
    }
    Ok(())
}
