//! Laws of the text, each the contract of a function that does nothing.

ghost use Rattle.std.specs.Prelude.{◌≡◌, ◌≢◌, ◌++◌, ℕ, List, []};
ghost use Rattle.oth_book.specs.declared.version.Version.{Version as AnyVersion};
ghost use Rattle.oth_book.specs.declared.claim.Claim.{Claim as AnyClaim};
ghost use Rattle.oth_book.specs.declared.fault.BookFault.{BookFault as AnyFault};
ghost use Rattle.oth_book.specs.declared.fault.BookFault.TheVariants as faults;
ghost use Rattle.oth_book.specs.Fault.{IsBookFault};
ghost use Rattle.oth_book.specs.Text.{book_text, AreClaims, IsBookText};

/// Each version has one text for each list of entries that it can say: version 2 for each scoring and list, version 1
/// for each list of exact entries. Bytes are the text of one version and one list at most.
pub fn one_text()
    ensures exists { (v : AnyVersion) (claims : List AnyClaim) → AreClaims v claims
        → IsBookText v claims (book_text v claims) }
    ensures text { (v : AnyVersion) (claims : List AnyClaim) (a b : List ℕ) → IsBookText v claims a
        → IsBookText v claims b → a ≡ b }
    ensures list { (v w : AnyVersion) (a b : List AnyClaim) (bytes : List ℕ) → IsBookText v a bytes
        → IsBookText w b bytes → (v ≡ w) × (a ≡ b) }
{}

/// No book's text begins another's, over both versions.
pub fn no_text_begins_another()
    ensures { (v w : AnyVersion) (a b : List AnyClaim) (more : List ℕ) → AreClaims v a → AreClaims w b
        → book_text v a ++ more ≡ book_text w b
        → (v ≡ w) × (a ≡ b) × (more ≡ []) }
{}

/// The text of a book has no fault: what is read is refused when out of memory alone.
pub fn no_fault()
    ensures { (v : AnyVersion) (claims : List AnyClaim) (bytes : List ℕ) (f : AnyFault) → IsBookText v claims bytes
        → IsBookFault bytes f → f ≢ faults.Memory → ⊥ }
{}

/// Bytes have one fault at most, out of memory aside.
pub fn one_fault()
    ensures { (bytes : List ℕ) (f g : AnyFault) → IsBookFault bytes f → IsBookFault bytes g → f ≢ faults.Memory
        → g ≢ faults.Memory → f ≡ g }
{}
