// Theorems: the promise of each public function determines its result. No code.
#![tactic(auto)]
