// Examples 1 to 8 under one claim (Forms 14). It is computed on the ownership history in specs/, and carried over to every table in proofs/.
#![tactic(auto)]

ghost use Rattle.paper_examples.specs.Promises.{ExamplesHold};

// From any 8,705 bytes the inputs come to the results. The function does nothing: its contract is the claim.
pub fn examples_hold()
    ensures { ExamplesHold }
{}
