//! Texts that are read line by line: what a text of such lines is, and its first line that doesn't fit. No code.
#![tactic(auto)]
