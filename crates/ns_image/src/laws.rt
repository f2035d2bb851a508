//! Laws on images, each as the contract of a function that does nothing.

ghost use Rattle.std.specs.Prelude.{◌≡◌, ◌++◌, ◌⊎◌, ℕ, List, Ok, All};
ghost use Rattle.ns_code.specs.Fits.{Fits, IsByte};
ghost use Rattle.ns_code.specs.declared.program.CodeProgram.{CodeProgram};
ghost use Rattle.ns_image.specs.Bytes.{bytes_of, old_bytes_of, bare, mark, half};
ghost use Rattle.ns_image.specs.Reading.{read_image};

/// Code is read again from the image that is written of it.
#[tactic(auto, using(crate::proofs::Images::written_is_read))]
pub fn written_code_is_read()
    ensures { (code : CodeProgram) → Fits code → read_image (bytes_of code) ≡ Ok code }
{}

/// Code of which version 1 leaves nothing out is read again from its image of version 1.
#[tactic(auto, using(crate::proofs::Images::old_is_read))]
pub fn old_code_is_read()
    ensures { (code : CodeProgram) → Fits code → bare code ≡ code → read_image (old_bytes_of code) ≡ Ok code }
{}

/// Bytes that are read are the image of the code that is read, in version 2 or in version 1; and
/// that code fits.
pub fn read_code_was_written()
    ensures { (bytes : List ℕ) (code : CodeProgram) → All IsByte bytes → read_image bytes ≡ Ok code →
        Fits code × ((bytes ≡ bytes_of code) ⊎ ((bytes ≡ old_bytes_of code) × (bare code ≡ code))) }
{}

/// Writing the code that an image of version 2 holds gives that image again.
pub fn image_is_written_again()
    ensures { (bytes rest : List ℕ) (code : CodeProgram) → All IsByte bytes → bytes ≡ mark ++ (half 2 ++ rest) →
        read_image bytes ≡ Ok code → bytes_of code ≡ bytes }
{}
