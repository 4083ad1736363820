//! Books of solved positions.
//!
//! From below: `order` (boards by their cells), `text` (read and written), `claims`, `verifying` (a claim is tested by
//! an `Answer` of its board where one is known, and else by a search), `book`, `add`, `laws`; and the plain types
//! `claim`, `version`, `fault` (why a text is no book's) and `wrong` (why an entry isn't true).
//!
//! The text is defined once, over a `Version` (`One`, or `Two` with the scoring): `header`, `bounds_text` and
//! `entry_line` take it; the end line, the order and the count don't. Faults are defined from the left by what the
//! rest of the text begins with (`stand`: a cut line, a bad byte, a whole entry line, a whole end line, one entry
//! too many). Since `stand` is a function, exactly one fault applies. A bad line is one that is no entry line: the
//! definitions contain no parser.
#![tactic(auto)]

mod add;
mod book;
mod claim;
mod claims;
mod fault;
pub mod laws;
mod order;
mod text;
mod verifying;
mod version;
mod wrong;

pub use add::{AddError, Added};
pub use book::Book;
pub use claim::Claim;
pub use claims::{Claims, check_text, read_claims};
pub use fault::BookFault;
pub use text::{WriteFault, write};
pub use verifying::{verify, verify_knowing};
pub use version::Version;
pub use wrong::{Cause, Wrong};
