// Theorems alone, in proofs/: no thread sleeps on an RwLock that nobody holds, unless another is awake that answers for it.
#![tactic(auto)]
