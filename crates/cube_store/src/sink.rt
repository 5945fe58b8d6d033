//! What the changes of a store are handed to.
ghost use Rattle.std.specs.Prelude.{OnOk};
ghost use Rattle.cube_store.specs.Rows.{Entry};

use std::alloc::AllocError;

/// What takes the changes of a store, one after another.
pub trait ChangeSink {
    // From this value the change leads to that one.
    ghost takes: { Self → Entry → Self → Type 0 };

    /// Takes the change of a source, 1 to 64, and the bytes of its record.
    fn take(&mut self, source: u32, content: &[u8]) -> Result<(), AllocError>
        ensures { OnOk result (takes self.old (source, content.now) self.new) };
}
