// The theory of bytes that are taken one after another while a test holds: definitions and laws, and no code.
#![tactic(auto)]
