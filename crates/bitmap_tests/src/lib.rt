// Tests of maps of bits, on maps made by hand. What is proved holds for all maps; these show that the bits are the ones that
// are meant.
#![tactic(auto)]

#[cfg(test)]
mod maps;
