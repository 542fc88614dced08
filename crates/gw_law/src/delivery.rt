ghost use Rattle.gw_law.specs.Laws.{ChannelsDeliver, RunsDeliver};

/// The law of delivery, of every whole run of a receiver and of a sender of its path; the function does nothing.
///
/// A destination's transmissions reassemble, in source order, to the first bytes, as many as its records tell, of the
/// source units that the records name; a record says Sent exactly where that is the whole unit. The same holds of all that
/// left on the destination's channel, with frames between that carry no data.
pub fn delivery_law()
    ensures own { RunsDeliver }
    ensures channel { ChannelsDeliver }
{}
