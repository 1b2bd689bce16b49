// The demands on Legestran, as statements over the definitions of its calls, and their proofs. There is no code here.
// specs/ alone says what is promised: DemandOne, DemandOneCalls, DemandTwo, DemandThree, Orderly; proofs/ shows that the calls keep it.
// It lies above every library, so that a demand is said once of all calls; nothing lies above it.
#![tactic(auto)]
