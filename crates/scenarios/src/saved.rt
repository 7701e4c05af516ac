//! A port that is saved as bytes, and a port that continues from them.
use crate::fault::CaseFault;
use crate::machine::CaseMachine;
use crate::words::Words;
use std::fmt::Write;
use uda_port::RestoreError;
use uda_saved::{BytesError, SavedState};

impl CaseMachine {
    /// Saves the port as bytes.
    pub fn save(&mut self) -> Result<(), CaseFault> {
        let state = SavedState {
            port: self.subject.port()?.save(),
            failing_calls: [None; 4],
        };
        self.saved = state.to_bytes().as_slice().to_vec(self.alloc)?;
        Ok(())
    }

    /// Changes saved bytes from an offset on.
    pub fn alter(&mut self, words: &mut Words<'_>) -> Result<(), CaseFault> {
        let first = words.number()? as usize;
        for place in self.saved.iter_mut().skip(first) {
            if words.count() == 0 {
                return Ok(());
            }
            *place = words.byte()?;
        }
        Ok(())
    }

    /// Makes the port continue from the saved bytes, and writes the outcome.
    pub fn resume(&mut self, came: &mut String) -> Result<(), CaseFault> {
        let port = self.subject.port()?;
        came.push_str(match SavedState::from_bytes(&self.saved) {
            Ok(state) => match port.restore(&state.port) {
                Ok(()) => "done",
                Err(RestoreError::Inconsistent) => "inconsistent",
                Err(RestoreError::OtherDrives) => "other-drives",
            },
            Err(BytesError::Length) => "length",
            Err(BytesError::Version) => "version",
            Err(BytesError::Invalid) => "invalid",
        })?;
        Ok(())
    }

    /// Writes `wanted` saved bytes from an offset on.
    pub fn state(&self, first: u32, wanted: usize, came: &mut String) -> Result<(), CaseFault> {
        for byte in self.saved.iter().skip(first as usize).take(wanted) {
            write!(came, "{byte:02x} ")?;
        }
        Ok(())
    }
}
