//! For C: the program as one call. The words of a command line and the files that they name lie in memory, and so does what the
//! program writes: its answer is that of `fuota_run::run` over these words and files, to the byte. What C must keep to beyond the
//! types is in the header, `c/fuota.h`.
#![tactic(auto)]

mod answering;
mod given;
mod run;
mod text_sink;
mod words;
