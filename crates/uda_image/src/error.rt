//! Errors from making or opening an image.
use std::alloc::AllocError;
use std::error::Error;
use std::fmt;

/// The reason why an image could not be made or opened. The numbers follow the order of this list.
#[derive(Clone, Copy, Debug, PartialEq, Eq)]
pub enum ImageError {
    /// Memory allocation for the image's bytes failed.
    NoMemory = 1,
    /// The file could not be opened or locked, is not a plain file, or its length could not be read.
    Open = 2,
    /// The length is not a multiple of 512.
    Length = 3,
    /// There are more blocks than an image can have.
    TooLarge = 4,
}

impl fmt::Display for ImageError {
    ghost use Rattle.std.specs.Prelude.{Some};
    ghost use Rattle.uda_image.specs.Display.{image_error_display};

    ghost output = { λ error. Some (image_error_display error) };

    fn fmt<W: fmt::Write>(&self, f: &mut fmt::Formatter<W>) -> fmt::Result {
        match self {
            ImageError::NoMemory => f.write_str("out of memory"),
            ImageError::Open => f.write_str("cannot open"),
            ImageError::Length => f.write_str("length is no multiple of 512"),
            ImageError::TooLarge => f.write_str("more than 891072 blocks"),
        }
    }
}

impl Error for ImageError {}

impl From<AllocError> for ImageError {
    ghost use Rattle.uda_image.specs.declared.error.ImageError.TheVariants.{NoMemory};
    ghost use Rattle.std.specs.Prelude.{◌≡◌};

    ghost from_gives = { λ _ e. e ≡ NoMemory };

    fn from(_: AllocError) -> Self {
        ImageError::NoMemory
    }
}
