//! What the loops of one check compute, as definitions in specs/, and the proof that it is the record. No function.
#![tactic(auto)]
