// Laws of the field within the bounds: what edits and ticks do to queues, counts, look-up and bounds. No code.
#![tactic(auto)]
