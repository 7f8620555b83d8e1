//! Laws of the definitions. These functions do nothing: their contracts are the laws.

ghost use Rattle.std.specs.Prelude.{◌≡◌, ℕ, List, Some, slice_get};
ghost use Rattle.ordered_links.specs.Link.{Link};
ghost use Rattle.faulty_link.specs.Wire.{Wire, WirePair, wire_lists, room_of};
ghost use Rattle.faulty_link.specs.Moves.{moved};
ghost use Rattle.faulty_link.specs.Pasts.{Act, Past, no_past, past_after, KeepsOrder};
ghost use Rattle.faulty_link.specs.Receiving.{IsReceivedRight};
ghost use Rattle.faulty_link.specs.Whole.{AreWires, IsWire};
ghost use Rattle.faulty_link.specs.declared.frame.Frame.{Frame};
ghost use Rattle.faulty_link.specs.declared.net_step.NetStep.{NetStep};

/// Whatever is put on a wire, taken from it and done by the network, the wire is whole: so the
/// window has each packet that waits to be received, and each frame that may be received has the
/// packet that was put under its number.
pub fn every_wire_is_whole()
    ensures { (link : Link) (acts : List Act)
        → IsWire (room_of link) (past_after (room_of link) no_past acts).wire }
{}

/// A frame that comes to the other end is received exactly where it has the number of the next
/// packet. It then has the oldest packet that waits to be received, and no other.
pub fn the_next_packet_is_received()
    ensures { (link : Link) (w : Wire) (place : ℕ) (frame : Frame)
        → IsWire (room_of link) w → slice_get w.flight place ≡ Some frame
        → IsReceivedRight w place frame }
{}

/// No move of the network changes what the links hold, or in which order.
pub fn moves_change_no_list()
    ensures { (step : NetStep) (wires new : List WirePair)
        → AreWires wires → moved step wires ≡ Some new
        → AreWires new × (wire_lists new ≡ wire_lists wires) }
{}

/// Whatever the network loses, repeats and reorders: what is handed over is what was put, in order
/// and each packet once, and the rest of it is on the wire.
pub fn what_is_handed_over_was_put()
    ensures { (link : Link) (acts : List Act)
        → KeepsOrder (past_after (room_of link) no_past acts) }
{}
