//! Methods of a handle.
ghost use Rattle.uda_c.specs.LendsController.{handle_follows};
ghost use Rattle.std.specs.Option.{option_copied_mut, option_map};
ghost use Rattle.std.specs.Prelude.{None, Some, ◌≡◌};
ghost use types.Logic.{sem};
ghost use denote.Param.Send.{IsSend};
ghost use Rattle.uda_c.specs.contracts.handle.Handle.{the_row};

use super::Handle;
use crate::controller::Controller;
use c_box::Loose;
use std::alloc::Global;
use std::ptr::null_mut;

impl Handle {
    pub fn get(&mut self) -> Option<&mut Controller>
        ensures* writes_back { sem 𝓛 (handle_follows self.entry result) }
        ensures value { option_copied_mut result ≡ self.old.value }
    {
        let at = self.at as *mut Controller;
        if at == null_mut() {
            return None;
        }
        Some(unsafe { &mut *at })
    }

    pub fn put(&mut self, controller: Loose<Controller, Global>)
        requires { self.old.value ≡ None }
        ensures { self.new.value ≡ Some controller.value }
    {
        let Loose { at, alloc: _ } = controller;
        self.at = at as *mut u8;
    }

    pub fn take(&mut self, alloc: Global) -> Option<Loose<Controller, Global>>
        ensures empty { self.new.value ≡ None }
        ensures value { option_map (λ l. l.value) result ≡ self.old.value }
    {
        let at = self.at as *mut Controller;
        if at == null_mut() {
            return None;
        }
        self.at = null_mut();
        Some(Loose { at, alloc })
    }
}

/// States that a handle may move to another thread, with its controller. It does nothing.
pub fn handle_crosses_threads()
    ensures law { IsSend the_row }
{}
