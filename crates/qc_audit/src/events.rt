//! Lists of steps of the serial machine.
ghost use Rattle.std.specs.Prelude.{◌≡◌};

use qc_serial::SerialEvent;
use std::marker::Model;

/// Steps of the serial machine, in order.
#[derive(Debug, Drop)]
pub struct Events {
    events: Vec<SerialEvent>,
}

impl Model for Events {
    ghost use Rattle.std.specs.Prelude.{List};
    ghost use Rattle.qc_serial.specs.declared.event.SerialEvent.{SerialEvent};

    ghost Value = { List SerialEvent };

    ghost view = { λ e. e.events.items };
}

impl Events {
    /// The events of a vector. It takes no memory.
    pub fn new(events: Vec<SerialEvent>) -> Self
        ensures { result ≡ events.items }
    {
        Events { events }
    }

    /// The events in order.
    pub fn as_slice(&self) -> &[SerialEvent]
        ensures { result.now ≡ self.now }
    {
        self.events.as_slice()
    }
}
