//! The last values of a history by the versions of its tuples, as a law over all legal histories.
ghost use Rattle.std.specs.Prelude.{ℕ, ◌≡◌, ◌<◌, List, length, map, slice_get, Some};
ghost use Rattle.std.specs.List.{range_with_len};
ghost use Rattle.qc_config.specs.Val.{Datum};
ghost use Rattle.qc_event.specs.Base.{Setting};
ghost use Rattle.qc_event.specs.History.{Past};
ghost use Rattle.qc_event.specs.Legal.{Legal};
ghost use Rattle.qc_event.specs.Sound.{IsSound};
ghost use Rattle.qc_serial.specs.Serial.{final_values};
ghost use Rattle.qc_refine.specs.Final.{final_value};

/// In a legal history over sound start tuples a record's last value at the serial machine is that of the greatest
/// version among its start tuples and what the puts whose every ancestor but the root is committed left at any
/// copy: no version falls, and the tuples of the greatest one have one value (Gifford).
pub fn last_values_are_serial()
    ensures one { (setting : Setting) (values : List Datum) (past : Past) (rec : ℕ) → Legal setting past
        → IsSound setting values
        → rec < length setting.firsts → slice_get (final_values values past) rec ≡ Some
        (final_value setting.base past rec) }
    ensures every { (setting : Setting) (values : List Datum) (past : Past) → Legal setting past
        → IsSound setting values
        → length values ≡ length setting.firsts
        → final_values values past ≡ map (final_value setting.base past)
        (range_with_len 0 (length setting.firsts)) }
{}
