//! A sample: a driver of NOR flash for sessions (this project's profile), over a trait `Nor` of
//! what a maker's code does with the part. Bytes are inverted, so that an erased byte reads 0, and
//! a range's header, its gates and its records share no sector; `docs/NOR.md` draws it. What is
//! proved: no call panics or reaches outside the part, a program only clears bits that are set,
//! what is written reads back, and no sector is erased for its copy unless the journal says that
//! the copy counts. That a session outlasts a stop at any moment is tested, over a part that is
//! stopped at each.
//!
//! From `nor_tests::bench`:
//!
//!     match NorFlash::over(part, SPAN, 2) {  // `part` is the maker's
//!         Some(flash) => flash,
//!         None => panic!(rt; "no range"),    // it is too small
//!     }
//!
//!     let mut flash = flash;
//!     match start(&mut flash, empty) {  // a session, as over any other `Flash`
//!         Ok(receiver) => Stand { flash, receiver },
//!         Err(_) => panic!(rt; "the flash is not opened"),
//!     }
#![tactic(auto)]

mod area;
mod bytes;
mod journal;
mod layout;
mod nor;
mod nor_flash;
mod sectors;

pub use layout::{FIRST, SECTOR, parts_fill_sectors, sectors_of};
pub use nor::Nor;
pub use nor_flash::NorFlash;
pub use sectors::{fetch, lay};
