//! What the machine may do next: whether it has stopped and is quiet, and the enabled choices in their order.

ghost use Rattle.std.specs.Prelude.{◌≡◌, ◌<◌, length, slice_get, Some};
ghost use Rattle.std.specs.List.{list_all};
ghost use Rattle.og_victim.specs.Slot.{is_free_slot};
ghost use Rattle.og_machine.specs.Machine.{is_stopped, is_quiet, is_at_rest};
ghost use Rattle.og_machine.specs.Choices.{enabled_of};
ghost use Rattle.og_engine.specs.Kept.{machine_of, setup_in, IsMade, WasMade};

use crate::Machine;
use og_base::Choice;
use og_image::Image;
use og_node::Node;
use og_runs::Seat;

impl Machine {
    /// Whether each hart has stopped.
    pub fn stopped(&self) -> bool
        requires made { WasMade self.now }
        ensures { result ≡ is_stopped (machine_of self.now) }
    {
        self.running == 0
    }

    /// Whether each hart has stopped, no message is in flight, no victim slot is taken, and the mover is idle.
    pub fn quiet(&self) -> bool
        requires made { WasMade self.now }
        ensures { result ≡ is_quiet (machine_of self.now) }
    {
        self.stopped() && (self.choices.flight().len() == 0 && self.rests())
    }

    /// Whether no victim slot is taken and the mover is idle.
    fn rests(&self) -> bool
        ensures { result ≡ list_all (λ x. is_at_rest x.local) (machine_of self.now).seats }
    {
        are_slots_free(&self.nodes) && self.mover.local.idle()
    }

    /// How many messages are in flight.
    pub fn in_flight(&self) -> u32
        ensures { result ≡ length (machine_of self.now).flight }
    {
        self.choices.flight().len() as u32
    }

    /// How many choices are enabled.
    pub fn enabled_count(&self, image: &Image) -> u32
        requires made { IsMade image.now self.now }
        ensures { result ≡ length (enabled_of (setup_in image.now self.now) (machine_of self.now)) }
    {
        self.choices.count() as u32
    }

    /// The enabled choice with this number in their order: for each actor its act, then its takes by sender and number.
    pub fn enabled(&self, image: &Image, at: u32) -> Choice
        requires made { IsMade image.now self.now }
        requires inside { at < length (enabled_of (setup_in image.now self.now) (machine_of self.now)) }
        ensures { slice_get (enabled_of (setup_in image.now self.now) (machine_of self.now)) at ≡ Some result }
    {
        self.choices.choice(at as usize)
    }
}

/// Whether no node's victim slot is taken.
fn are_slots_free(nodes: &[Seat<Node>]) -> bool
    ensures { result ≡ list_all (λ x. is_free_slot x.local.processor.victim) nodes.now }
{
    nodes.iter().all(|seat| seat.local.victim_free())
}
