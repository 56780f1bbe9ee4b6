//! What a job does over a host: compiling, running an image, or both. `do_job` says how each job ends. Compiling
//! puts the bytes of an image that implements the program of the file's source, or nothing. Running a source: an
//! image that implements its program has run, and by some legal schedule the program prints just what the run has
//! printed, comes to the same end and leaves the same words, whose dump was put where one is named. With a seed the
//! run is the one that it picks; without one each control unit is a host thread, and the run is one that some legal
//! schedule leads to, of which no more is promised. Running an image: the same of the image whose bytes the file
//! holds. A map or an image is refused for the first fault of its bytes. A trap or a spent budget leaves all files; a
//! fault or want of memory leaves a prefix of the output, and of the file that was being put.
#![tactic(auto)]

mod dump;
mod job;
mod loaded_image;
mod map;
mod outcome;
mod source;

pub use job::do_job;
pub use outcome::{BytesFault, Outcome};
