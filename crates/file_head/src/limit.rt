//! How long a file may be.
ghost use Rattle.std.specs.Prelude.{◌≡◌};
ghost use Rattle.file_head.specs.Limit.{fits};

/// The most bytes that a file may have, of which docs/FORMAT.md speaks.
pub const FILE_LIMIT: usize = 65_536;

/// Whether a file is no longer than it may be; what reads one tests this first.
pub fn fits(file: &[u8]) -> bool
    ensures { result ≡ fits file.now }
{
    file.len() <= FILE_LIMIT
}
