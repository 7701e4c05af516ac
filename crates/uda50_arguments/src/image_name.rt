//! Names of images.
ghost use Rattle.std.specs.Prelude.{◌≡◌, ◌++◌, true, false, codes};

/// The name of an image on the command line.
#[derive(Clone, Copy, Debug, PartialEq, Eq)]
pub struct ImageName<'w> {
    /// The path of the file.
    pub path: &'w str,
    /// Whether the unit has hardware write protection, so that the file is only read.
    pub protected: bool,
}

impl<'w> ImageName<'w> {
    /// Returns whether this is `-`, which is standard input or output where a stream can be.
    pub fn is_stream(&self) -> bool
        ensures stream { result ≡ true → (self.now.path.now ≡ codes "-") × (self.now.protected ≡ false) }
    {
        !self.protected && self.path == "-"
    }

    /// Reads an argument: `lock:FILE` for a protected image, or `FILE`.
    pub fn parse(argument: &'w str) -> ImageName<'w>
        ensures protected { result.protected ≡ true
            → argument.entry.now ≡ codes "lock:" ++ result.path.now }
        ensures plain { result.protected ≡ false → result.path.now ≡ argument.entry.now }
    {
        match argument.strip_prefix("lock:") {
            Some(path) => ImageName {
                path,
                protected: true,
            },
            None => ImageName {
                path: argument,
                protected: false,
            },
        }
    }
}
