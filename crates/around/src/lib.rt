// Theorems on what stands around a module's step: the program's frames, the image, and one answer for every public function. It has no code.
#![tactic(auto)]
