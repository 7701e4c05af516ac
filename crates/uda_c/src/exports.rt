//! The functions that C calls, as `include/uda50.h` declares them. Each accepts every handle, including one
//! that was never made or was freed.
ghost use Rattle.std.specs.Prelude.{None, Some, true, false, is_some, ◌≡◌, ◌||◌};
ghost use Rattle.uda_port.specs.Port.{port_restarted, port_after_ip_read};
ghost use Rattle.uda_port.specs.Startup.{sa_shown};
ghost use Rattle.uda_c.specs.CallStatus.{status_code};
ghost use Rattle.uda_c.specs.Choices.{bus_of};
ghost use Rattle.uda_packet.specs.DriveTypes.{type_numbered};
ghost use Rattle.uda_c.specs.declared.call_status.CallStatus.{CallStatus};
ghost use Rattle.uda_c.specs.declared.call_status.CallStatus.TheVariants.{Done, NoController};
ghost use Rattle.uda_c.specs.Controllers.{OnHandle, OnClosed, AreValid, HoldsValid, MakesNew, MakesNumbered, MakesAs, SetsType, refusal_of_new, profile_of, is_read_only, Frees, GivesBack};
ghost use Rattle.uda_c.specs.Controllers.{Attaches, Detaches, HasImage, HadBytes, WritesSa};
ghost use Rattle.uda_c.specs.Controllers.{FailsAt, TurnsWhereMemory, TakesInterrupt, SetsProtection};
ghost use Rattle.uda_port.specs.StartupUse.{range_zeroed};
ghost use Rattle.uda_c.specs.TurnUse.{WritesSaAt};
ghost use Rattle.uda_c.specs.Steps.{BeginsTurn, GetsBody, GetsWritten, TurnsAt};
ghost use Rattle.uda_c.specs.Saving.{Saves, Restores};
ghost use Rattle.uda_c.specs.BlockRange.{AttachesCalled};
ghost use Rattle.uda_c.specs.Maps.{OverMap, ReadsMapped, WritesMapped, TakesTurnsThroughMap, WritesSaOver};
ghost use Rattle.uda_c.specs.Runs.{RunsWhereMemory, UnlessCalled};
ghost use Rattle.uda_c.specs.RunsToBlocks.{RunsToBlocks};
ghost use Rattle.uda_c.specs.Inspection.{GetsState, GetsLastTurn, GetsUnit};
ghost use Rattle.uda_c.specs.Last.{TellsLine};

use crate::call_status::CallStatus;
use crate::choices::bus_of;
use crate::controller::Controller;
use crate::handle::Handle;
use crate::last::{TurnRecord, put_last_line};
use crate::map::{MapRegisters, read_mapped, write_mapped};
use crate::saving::restore_status;
use crate::slot::Slot;
use crate::snapshot::{PortSnapshot, UnitSnapshot};
use crate::turn_use::TurnUse;
use crate::unit_images::UnitImages;
use c_box::Loose;
use std::alloc::Global;
use uda_mem::ByteRange;
use uda_packet::{DriveType, Identity};
use uda_port::{Profile, USUAL_IDENTITY};

/// Returns the library's version: 10000 times the major number, 100 times the minor, and the patch number.
#[unsafe(no_mangle)]
pub extern "C" fn uda50_version() -> u32
    ensures version { result ≡ 100 }
{
    100
}

/// Makes a controller without images, of the compatible or the strict profile. A handle that has a controller
/// keeps it. If an allocation fails, the handle has none.
#[unsafe(no_mangle)]
pub extern "C" fn uda50_new(alloc: Global, handle: &mut Handle, compatible: bool) -> u32
    ensures made { (answer : CallStatus) × (result ≡ status_code answer)
        × MakesNew handle.old.value (profile_of compatible) answer handle.new.value }
    ensures valid { AreValid handle.old.value handle.new.value }
{
    if has_controller(handle) {
        return CallStatus::HasController.code();
    }
    make(alloc, handle, profile_of(compatible)).code()
}

/// Makes a controller of the compatible profile on a bus, whose units have the numbers from `first_unit` on.
/// A handle that has a controller keeps it. If the number of the fourth unit would be above 65,535, or if an
/// allocation fails, the handle has none.
#[unsafe(no_mangle)]
pub extern "C" fn uda50_new_as(alloc: Global, handle: &mut Handle, bus: u32, first_unit: u16) -> u32
    ensures made { (answer : CallStatus) × (result ≡ status_code answer)
        × MakesAs handle.old.value (bus_of bus) first_unit answer handle.new.value }
    ensures valid { AreValid handle.old.value handle.new.value }
{
    if has_controller(handle) {
        return refuse_new(bus).code();
    }
    match bus_of(bus) {
        Some(bus) => make(
            alloc,
            handle,
            Profile::Compatible(Identity { bus, first_unit }),
        )
        .code(),
        None => CallStatus::NoSuchBus.code(),
    }
}

/// Sets the drive type of a unit without an image.
#[unsafe(no_mangle)]
pub extern "C" fn uda50_set_type(handle: &mut Handle, unit: u32, drive_type: u32) -> u32
    ensures sets { OnClosed handle.old.value handle.new.value (result ≡ status_code NoController)
        (λ old new. (answer : CallStatus) × (result ≡ status_code answer)
        × SetsType old unit (type_numbered drive_type) answer new) }
    ensures valid { AreValid handle.old.value handle.new.value }
{
    match handle.get() {
        Some(controller) => {
            controller.keep();
            controller.close();
            let answer = controller
                .set_type(unit, DriveType::of_number(drive_type))
                .code();
            controller.keep();
            answer
        }
        None => CallStatus::NoController.code(),
    }
}

/// Frees the controller and gives C the images of its units. If a slot for them isn't empty, nothing changes.
#[unsafe(no_mangle)]
pub extern "C" fn uda50_free(alloc: Global, handle: &mut Handle, images: &mut UnitImages) -> u32
    ensures frees { (answer : CallStatus) × (result ≡ status_code answer)
        × Frees handle.old.value images.old answer handle.new.value images.new }
    ensures done { result ≡ 0 → handle.new.value ≡ None }
    ensures valid { AreValid handle.old.value handle.new.value }
{
    match give_back(handle, images) {
        CallStatus::Done => {
            free_controller(alloc, handle);
            CallStatus::Done.code()
        }
        refusal => refusal.code(),
    }
}

/// Attaches an image to a unit, and empties C's struct. If it fails, the struct keeps its bytes.
#[unsafe(no_mangle)]
pub extern "C" fn uda50_attach(
    handle: &mut Handle,
    unit: u32,
    image: &mut Slot,
    write_protected: bool,
) -> u32
    ensures attaches { OnClosed handle.old.value handle.new.value
        ((result ≡ status_code NoController) × (image.new ≡ image.old))
        (λ old new. (answer : CallStatus) × (result ≡ status_code answer)
        × Attaches (old, image.old) unit write_protected answer (new, image.new)) }
    ensures done { result ≡ 0
        → HasImage handle.new.value unit (record {
          bytes = image.old.held;
          hard = is_read_only handle.old.value unit || write_protected;
        }) }
    ensures valid { AreValid handle.old.value handle.new.value }
{
    match handle.get() {
        Some(controller) => {
            controller.keep();
            controller.close();
            let answer = controller.attach(unit, image, write_protected);
            controller.keep();
            answer.code()
        }
        None => CallStatus::NoController.code(),
    }
}

/// Detaches the image of a unit, and puts its bytes into C's empty struct, as the commands left them.
#[unsafe(no_mangle)]
pub extern "C" fn uda50_detach(handle: &mut Handle, unit: u32, image: &mut Slot) -> u32
    ensures detaches { OnClosed handle.old.value handle.new.value
        ((result ≡ status_code NoController) × (image.new ≡ image.old))
        (λ old new. (answer : CallStatus) × (result ≡ status_code answer)
        × Detaches (old, image.old) unit answer (new, image.new)) }
    ensures done { result ≡ 0 → HadBytes handle.old.value unit image.new.held }
    ensures valid { AreValid handle.old.value handle.new.value }
{
    match handle.get() {
        Some(controller) => {
            controller.keep();
            controller.close();
            let answer = controller.detach(unit, image);
            controller.keep();
            answer.code()
        }
        None => CallStatus::NoController.code(),
    }
}

/// Moves the write-protect button of a unit's drive, while an image is attached.
#[unsafe(no_mangle)]
pub extern "C" fn uda50_set_protected(handle: &mut Handle, unit: u32, write_protected: bool) -> u32
    ensures protects { OnClosed handle.old.value handle.new.value (result ≡ status_code NoController)
        (λ old new. (answer : CallStatus) × (result ≡ status_code answer)
        × SetsProtection old unit write_protected answer new) }
    ensures valid { AreValid handle.old.value handle.new.value }
{
    match handle.get() {
        Some(controller) => {
            controller.keep();
            controller.close();
            let answer = controller.set_protected(unit, write_protected).code();
            controller.keep();
            answer
        }
        None => CallStatus::NoController.code(),
    }
}

/// Makes one block call of a unit's image fail, counted from now on.
#[unsafe(no_mangle)]
pub extern "C" fn uda50_inject_failure(handle: &mut Handle, unit: u32, call: u32) -> u32
    ensures fails { OnClosed handle.old.value handle.new.value (result ≡ status_code NoController)
        (λ old new. (answer : CallStatus) × (result ≡ status_code answer)
        × FailsAt old unit (Some call) answer new) }
    ensures valid { AreValid handle.old.value handle.new.value }
{
    match handle.get() {
        Some(controller) => {
            controller.keep();
            controller.close();
            let answer = controller.set_failing_call(unit, Some(call)).code();
            controller.keep();
            answer
        }
        None => CallStatus::NoController.code(),
    }
}

/// Copies the state of the controller into C's bytes.
#[unsafe(no_mangle)]
pub extern "C" fn uda50_save(handle: &mut Handle, state: &mut [u8]) -> u32
    ensures saves { OnHandle handle.old.value handle.new.value
        ((result ≡ status_code NoController) × (state.new ≡ state.old))
        (λ old new. (answer : CallStatus) × (result ≡ status_code answer) × (new ≡ old)
        × Saves old state.old answer state.new) }
    ensures valid { AreValid handle.old.value handle.new.value }
{
    match handle.get() {
        Some(controller) => {
            controller.keep();
            controller.save(state).code()
        }
        None => CallStatus::NoController.code(),
    }
}

/// Continues from saved bytes, over the images that are attached.
#[unsafe(no_mangle)]
pub extern "C" fn uda50_restore(handle: &mut Handle, state: &[u8]) -> u32
    ensures restores { OnClosed handle.old.value handle.new.value (result ≡ status_code NoController)
        (λ old new. (answer : CallStatus) × (result ≡ status_code answer)
        × Restores old state.now answer new) }
    ensures valid { AreValid handle.old.value handle.new.value }
{
    match handle.get() {
        Some(controller) => {
            controller.keep();
            controller.close();
            let answer = restore_status(controller.restore(state)).code();
            controller.keep();
            answer
        }
        None => CallStatus::NoController.code(),
    }
}

/// Writes IP for the guest.
#[unsafe(no_mangle)]
pub extern "C" fn uda50_write_ip(handle: &mut Handle, word: u16)
    ensures restarts { OnClosed handle.old.value handle.new.value Unit
        (λ old new. new ≡ record old { port = port_restarted old.port }) }
    ensures valid { AreValid handle.old.value handle.new.value }
{
    if let Some(controller) = handle.get() {
        controller.keep();
        controller.close();
        controller.write_ip(word);
        controller.keep();
    }
}

/// Reads IP for the guest, which starts the polling of a running port.
#[unsafe(no_mangle)]
pub extern "C" fn uda50_read_ip(handle: &mut Handle) -> u16
    ensures reads_zero { result ≡ 0 }
    ensures starts_polling { OnClosed handle.old.value handle.new.value Unit
        (λ old new. new ≡ record old { port = port_after_ip_read old.port.phase old.port }) }
    ensures valid { AreValid handle.old.value handle.new.value }
{
    match handle.get() {
        Some(controller) => {
            controller.keep();
            controller.close();
            let answer = controller.read_ip();
            controller.keep();
            answer
        }
        None => 0,
    }
}

/// Writes SA for the guest.
#[unsafe(no_mangle)]
pub extern "C" fn uda50_write_sa(handle: &mut Handle, word: u16, memory: &mut [u8]) -> u32
    ensures effect { OnClosed handle.old.value handle.new.value
        ((result ≡ status_code NoController) × (memory.new ≡ memory.old))
        (λ old new. (answer : CallStatus) × (result ≡ status_code answer)
        × UnlessCalled (old, memory.old) answer (new, memory.new)
        ((answer ≡ Done) × WritesSa old memory.old word new memory.new)) }
    ensures valid { AreValid handle.old.value handle.new.value }
{
    match handle.get() {
        Some(controller) => {
            controller.keep();
            controller.close();
            let answer = controller.write_sa(word, memory).code();
            controller.keep();
            answer
        }
        None => CallStatus::NoController.code(),
    }
}

/// Reads SA for the guest.
#[unsafe(no_mangle)]
pub extern "C" fn uda50_read_sa(handle: &mut Handle) -> u16
    ensures sa { OnHandle handle.old.value handle.new.value (result ≡ 0)
        (λ old new. (result ≡ sa_shown old.port) × (new ≡ old)) }
    ensures valid { AreValid handle.old.value handle.new.value }
{
    match handle.get() {
        Some(controller) => {
            controller.keep();
            let answer = controller.port.read_sa();
            controller.keep();
            answer
        }
        None => 0,
    }
}

/// Runs one turn of the port in the guest's memory.
#[unsafe(no_mangle)]
pub extern "C" fn uda50_turn(handle: &mut Handle, memory: &mut [u8]) -> u32
    ensures effect { OnClosed handle.old.value handle.new.value
        ((result ≡ status_code NoController) × (memory.new ≡ memory.old))
        (λ old new. (answer : CallStatus) × (result ≡ status_code answer)
        × UnlessCalled (old, memory.old) answer (new, memory.new)
        (TurnsWhereMemory old memory.old answer new memory.new)) }
    ensures valid { AreValid handle.old.value handle.new.value }
{
    match handle.get() {
        Some(controller) => {
            controller.keep();
            controller.close();
            let answer = controller.turn(memory).code();
            controller.keep();
            answer
        }
        None => CallStatus::NoController.code(),
    }
}

/// Takes the pending interrupt request, if there is one.
#[unsafe(no_mangle)]
pub extern "C" fn uda50_take_interrupt(handle: &mut Handle, vector: &mut u16) -> bool
    ensures takes { OnClosed handle.old.value handle.new.value
        ((result ≡ false) × (vector.new ≡ vector.old))
        (λ old new. TakesInterrupt old vector.old result new vector.new) }
    ensures valid { AreValid handle.old.value handle.new.value }
{
    let Some(controller) = handle.get() else {
        return false;
    };
    controller.keep();
    controller.close();
    let request = controller.take_interrupt();
    controller.keep();
    match request {
        Some(address) => {
            *vector = address;
            true
        }
        None => false,
    }
}

/// Runs up to `turns` turns of the port, and stops after the first that does nothing.
#[unsafe(no_mangle)]
pub extern "C" fn uda50_run(handle: &mut Handle, turns: u32, memory: &mut [u8]) -> u32
    ensures runs { OnClosed handle.old.value handle.new.value
        ((result ≡ status_code NoController) × (memory.new ≡ memory.old))
        (λ old new. (answer : CallStatus) × (result ≡ status_code answer)
        × UnlessCalled (old, memory.old) answer (new, memory.new)
        (RunsWhereMemory turns (old, memory.old) answer (new, memory.new))) }
    ensures valid { AreValid handle.old.value handle.new.value }
{
    match handle.get() {
        Some(controller) => {
            controller.keep();
            controller.close();
            let answer = controller.run(turns, memory).code();
            controller.keep();
            answer
        }
        None => CallStatus::NoController.code(),
    }
}

/// Begins a turn: fills the struct with the descriptors that it reads in a window into the guest's memory.
#[unsafe(no_mangle)]
pub extern "C" fn uda50_get_descriptors(
    handle: &mut Handle,
    window: &[u8],
    turn: &mut TurnUse,
) -> u32
    ensures begins { OnHandle handle.old.value handle.new.value
        ((result ≡ status_code NoController) × (turn.new ≡ turn.old))
        (λ old new. (answer : CallStatus) × (result ≡ status_code answer)
        × BeginsTurn (old, turn.old) window.now answer (new, turn.new)) }
    ensures valid { AreValid handle.old.value handle.new.value }
{
    match handle.get() {
        Some(controller) => {
            controller.keep();
            let answer = controller.get_descriptors(window, turn).code();
            controller.keep();
            answer
        }
        None => CallStatus::NoController.code(),
    }
}

/// Fills in the command that the next turn executes, what the turn uses besides the descriptors, and the blocks that it
/// uses of an image that C reads and writes.
#[unsafe(no_mangle)]
pub extern "C" fn uda50_get_body(handle: &mut Handle, window: &[u8], turn: &mut TurnUse) -> u32
    ensures gets { OnHandle handle.old.value handle.new.value
        ((result ≡ status_code NoController) × (turn.new ≡ turn.old))
        (λ old new. (answer : CallStatus) × (result ≡ status_code answer) × (new ≡ old)
        × GetsBody old window.now turn.old answer turn.new) }
    ensures valid { AreValid handle.old.value handle.new.value }
{
    match handle.get() {
        Some(controller) => {
            controller.keep();
            controller.get_body(window, turn).code()
        }
        None => CallStatus::NoController.code(),
    }
}

/// Runs one turn of the port over a window into the guest's memory, and fills in what it wrote. The blocks that C has
/// moved are ready only for this turn.
#[unsafe(no_mangle)]
pub extern "C" fn uda50_turn_at(handle: &mut Handle, window: &mut [u8], turn: &mut TurnUse) -> u32
    ensures effect { OnHandle handle.old.value handle.new.value
        ((result ≡ status_code NoController) × ((window.new ≡ window.old) × (turn.new ≡ turn.old)))
        (λ old new. (answer : CallStatus) × (result ≡ status_code answer)
        × TurnsAt (old, window.old) turn.old answer turn.new (new, window.new)) }
    ensures valid { AreValid handle.old.value handle.new.value }
{
    match handle.get() {
        Some(controller) => {
            controller.keep();
            let answer = controller.turn_at(window, turn).code();
            controller.keep();
            answer
        }
        None => CallStatus::NoController.code(),
    }
}

/// Returns in `area` what a word that is written to SA zeroes.
#[unsafe(no_mangle)]
pub extern "C" fn uda50_get_zeroed(
    handle: &mut Handle,
    word: u16,
    window: &[u8],
    area: &mut ByteRange,
) -> u32
    ensures gets { OnHandle handle.old.value handle.new.value
        ((result ≡ status_code NoController) × (area.new ≡ area.old))
        (λ old new. (result ≡ status_code Done) × (new ≡ old)
        × (area.new ≡ range_zeroed old.port.phase old.port window.now word)) }
    ensures valid { AreValid handle.old.value handle.new.value }
{
    match handle.get() {
        Some(controller) => {
            controller.keep();
            *area = controller.port.range_zeroed(word, window);
            CallStatus::Done.code()
        }
        None => CallStatus::NoController.code(),
    }
}

/// Writes SA for the guest over a window into its memory, and returns in `area` what was zeroed.
#[unsafe(no_mangle)]
pub extern "C" fn uda50_write_sa_at(
    handle: &mut Handle,
    word: u16,
    window: &mut [u8],
    missing: bool,
    area: &mut ByteRange,
) -> u32
    ensures effect { OnClosed handle.old.value handle.new.value
        ((result ≡ status_code NoController) × ((window.new ≡ window.old) × (area.new ≡ area.old)))
        (λ old new. (result ≡ status_code Done)
        × WritesSaAt missing (old, window.old) word area.new (new, window.new)) }
    ensures valid { AreValid handle.old.value handle.new.value }
{
    match handle.get() {
        Some(controller) => {
            controller.keep();
            controller.close();
            *area = controller.write_sa_at(word, window, missing);
            controller.keep();
            CallStatus::Done.code()
        }
        None => CallStatus::NoController.code(),
    }
}

/// Runs up to `turns` turns over memory through map registers, and stops after the first that does nothing.
#[unsafe(no_mangle)]
pub extern "C" fn uda50_run_mapped(
    handle: &mut Handle,
    turns: u32,
    memory: &mut [u8],
    map: &MapRegisters<'_>,
) -> u32
    ensures runs { OnClosed handle.old.value handle.new.value
        ((result ≡ status_code NoController) × (memory.new ≡ memory.old))
        (λ old new. (answer : CallStatus) × (result ≡ status_code answer)
        × UnlessCalled (old, memory.old) answer (new, memory.new)
        (OverMap map.now (old, memory.old) answer (new, memory.new)
        (λ bus. TakesTurnsThroughMap bus turns Done (old, memory.old) (answer, (new, memory.new))))) }
    ensures valid { AreValid handle.old.value handle.new.value }
{
    match handle.get() {
        Some(controller) => {
            controller.keep();
            controller.close();
            let answer = controller.run_mapped(turns, memory, map).code();
            controller.keep();
            answer
        }
        None => CallStatus::NoController.code(),
    }
}

/// Runs turns over memory through map registers, and stops before each turn that uses blocks of an image that C reads and
/// writes.
#[unsafe(no_mangle)]
pub extern "C" fn uda50_run_to_blocks(
    handle: &mut Handle,
    memory: &mut [u8],
    map: &MapRegisters<'_>,
    window: &mut [u8],
    turn: &mut TurnUse,
) -> u32
    ensures runs { OnHandle handle.old.value handle.new.value
        ((result ≡ status_code NoController)
        × ((memory.new ≡ memory.old) × ((window.new ≡ window.old) × (turn.new ≡ turn.old))))
        (λ old new. (answer : CallStatus) × (result ≡ status_code answer)
        × RunsToBlocks map.now (record { machine = (old, memory.old); window = window.old; turn = turn.old }) answer
        (record { machine = (new, memory.new); window = window.new; turn = turn.new })) }
    ensures valid { AreValid handle.old.value handle.new.value }
{
    match handle.get() {
        Some(controller) => {
            controller.keep();
            let answer = controller.run_to_blocks(memory, map, window, turn).code();
            controller.keep();
            answer
        }
        None => CallStatus::NoController.code(),
    }
}

/// Writes SA for the guest over memory through map registers.
#[unsafe(no_mangle)]
pub extern "C" fn uda50_write_sa_mapped(
    handle: &mut Handle,
    word: u16,
    memory: &mut [u8],
    map: &MapRegisters<'_>,
) -> u32
    ensures effect { OnClosed handle.old.value handle.new.value
        ((result ≡ status_code NoController) × (memory.new ≡ memory.old))
        (λ old new. (answer : CallStatus) × (result ≡ status_code answer)
        × UnlessCalled (old, memory.old) answer (new, memory.new)
        (OverMap map.now (old, memory.old) answer (new, memory.new)
        (λ bus. WritesSaOver bus (old, memory.old) word answer (new, memory.new)))) }
    ensures valid { AreValid handle.old.value handle.new.value }
{
    match handle.get() {
        Some(controller) => {
            controller.keep();
            controller.close();
            let answer = controller.write_sa_mapped(word, memory, map).code();
            controller.keep();
            answer
        }
        None => CallStatus::NoController.code(),
    }
}

/// Attaches an image of `blocks` blocks that C reads and writes by calls of its own.
#[unsafe(no_mangle)]
pub extern "C" fn uda50_attach_called(
    handle: &mut Handle,
    unit: u32,
    blocks: u64,
    write_protected: bool,
) -> u32
    ensures attaches { OnClosed handle.old.value handle.new.value (result ≡ status_code NoController)
        (λ old new. (answer : CallStatus) × (result ≡ status_code answer)
        × AttachesCalled old (unit, (blocks, write_protected)) answer new) }
    ensures valid { AreValid handle.old.value handle.new.value }
{
    match handle.get() {
        Some(controller) => {
            controller.keep();
            controller.close();
            let answer = controller
                .attach_called(unit, blocks, write_protected)
                .code();
            controller.keep();
            answer
        }
        None => CallStatus::NoController.code(),
    }
}

/// Fills `to` with bytes of the blocks that the next turn writes, after the first `skip` of them.
#[unsafe(no_mangle)]
pub extern "C" fn uda50_get_written(
    handle: &mut Handle,
    window: &[u8],
    turn: &TurnUse,
    skip: u32,
    to: &mut [u8],
) -> u32
    ensures gets { OnHandle handle.old.value handle.new.value
        ((result ≡ status_code NoController) × (to.new ≡ to.old))
        (λ old new. (answer : CallStatus) × (result ≡ status_code answer) × (new ≡ old)
        × GetsWritten old window.now (turn.now, skip) answer (to.old, to.new)) }
    ensures valid { AreValid handle.old.value handle.new.value }
{
    match handle.get() {
        Some(controller) => {
            controller.keep();
            controller.get_written(window, turn, skip, to).code()
        }
        None => CallStatus::NoController.code(),
    }
}

/// Copies bytes of a bus from an address on. Those whose address leads nowhere are 0.
#[unsafe(no_mangle)]
pub extern "C" fn uda50_read_mapped(
    memory: &[u8],
    map: &MapRegisters<'_>,
    address: u32,
    to: &mut [u8],
) -> u32
    ensures reads { (answer : CallStatus) × (result ≡ status_code answer)
        × ReadsMapped map.now memory.now address answer (to.old, to.new) }
{
    read_mapped(memory, map, address, to).code()
}

/// Copies bytes to a bus from an address on, by rising address, except those whose address leads nowhere.
#[unsafe(no_mangle)]
pub extern "C" fn uda50_write_mapped(
    memory: &mut [u8],
    map: &MapRegisters<'_>,
    address: u32,
    from: &[u8],
) -> u32
    ensures writes { (answer : CallStatus) × (result ≡ status_code answer)
        × WritesMapped map.now (memory.old, memory.new) address from.now answer }
{
    write_mapped(memory, map, address, from).code()
}

/// Copies the state of the port into C's struct.
#[unsafe(no_mangle)]
pub extern "C" fn uda50_get_state(handle: &mut Handle, state: &mut PortSnapshot) -> u32
    ensures shows { OnHandle handle.old.value handle.new.value
        ((result ≡ status_code NoController) × (state.new ≡ state.old))
        (λ old new. (answer : CallStatus) × (result ≡ status_code answer) × (new ≡ old)
        × GetsState old state.old answer state.new) }
    ensures valid { AreValid handle.old.value handle.new.value }
{
    match handle.get() {
        Some(controller) => {
            controller.keep();
            controller.get_state(state).code()
        }
        None => CallStatus::NoController.code(),
    }
}

/// Copies the record of the last turn into C's struct.
#[unsafe(no_mangle)]
pub extern "C" fn uda50_get_last_turn(handle: &mut Handle, turn: &mut TurnRecord) -> u32
    ensures accurate { OnHandle handle.old.value handle.new.value
        ((result ≡ status_code NoController) × (turn.new ≡ turn.old))
        (λ old new. (answer : CallStatus) × (result ≡ status_code answer) × (new ≡ old)
        × GetsLastTurn old turn.old answer turn.new) }
    ensures valid { AreValid handle.old.value handle.new.value }
{
    match handle.get() {
        Some(controller) => {
            controller.keep();
            controller.get_last_turn(turn).code()
        }
        None => CallStatus::NoController.code(),
    }
}

/// Copies a unit's drive type, image and mode into C's struct.
#[unsafe(no_mangle)]
pub extern "C" fn uda50_get_unit(handle: &mut Handle, unit: u32, info: &mut UnitSnapshot) -> u32
    ensures shows { OnHandle handle.old.value handle.new.value
        ((result ≡ status_code NoController) × (info.new ≡ info.old))
        (λ old new. (answer : CallStatus) × (result ≡ status_code answer) × (new ≡ old)
        × GetsUnit old unit info.old answer info.new) }
    ensures valid { AreValid handle.old.value handle.new.value }
{
    match handle.get() {
        Some(controller) => {
            controller.keep();
            controller.get_unit(unit, info).code()
        }
        None => CallStatus::NoController.code(),
    }
}

/// Writes the line of the last turn into C's buffer, as much of it as fits, followed by a 0.
#[unsafe(no_mangle)]
pub extern "C" fn uda50_format_last_turn(
    alloc: Global,
    handle: &mut Handle,
    buffer: &mut [u8],
) -> u32
    ensures accurate { OnHandle handle.old.value handle.new.value
        ((result ≡ status_code NoController) × (buffer.new ≡ buffer.old))
        (λ old new. (answer : CallStatus) × (result ≡ status_code answer) × (new ≡ old)
        × TellsLine old.last buffer.old answer buffer.new) }
    ensures valid { AreValid handle.old.value handle.new.value }
{
    match handle.get() {
        Some(controller) => {
            controller.keep();
            let answer = put_last_line(alloc, controller.last, buffer).code();
            controller.keep();
            answer
        }
        None => CallStatus::NoController.code(),
    }
}

// Returns the status of a call that makes a controller in a handle that has one.
fn refuse_new(bus: u32) -> CallStatus
    ensures { result ≡ refusal_of_new (bus_of bus) }
{
    match bus_of(bus) {
        Some(_) => CallStatus::HasController,
        None => CallStatus::NoSuchBus,
    }
}

// Returns whether the handle has a controller.
fn has_controller(handle: &mut Handle) -> bool
    ensures value { result ≡ is_some handle.old.value }
    ensures same { handle.new.value ≡ handle.old.value }
    ensures valid { HoldsValid handle.old.value }
{
    match handle.get() {
        Some(controller) => {
            controller.keep();
            true
        }
        None => false,
    }
}

// Gives C the images of the controller's units, if all slots for them are empty.
fn give_back(handle: &mut Handle, images: &mut UnitImages) -> CallStatus
    ensures gives_back { OnHandle handle.old.value handle.new.value
        ((result ≡ NoController) × (images.new ≡ images.old))
        (λ old new. GivesBack (old, images.old) result (new, images.new)) }
    ensures valid { HoldsValid handle.old.value }
{
    match handle.get() {
        Some(controller) => {
            controller.keep();
            controller.give_back(images)
        }
        None => CallStatus::NoController,
    }
}

// Frees the controller, if the handle has one.
fn free_controller(alloc: Global, handle: &mut Handle)
    ensures gone { handle.new.value ≡ None }
{
    if let Some(controller) = handle.take(alloc) {
        drop(controller.into_box());
    }
}

// Returns the profile that C asks for. The compatible one has a controller on a UNIBUS, with units from 0 on.
fn profile_of(compatible: bool) -> Profile
    ensures { result ≡ profile_of compatible }
{
    if compatible {
        Profile::Compatible(USUAL_IDENTITY)
    } else {
        Profile::Strict
    }
}

// Puts a new controller into an empty handle.
fn make(alloc: Global, handle: &mut Handle, profile: Profile) -> CallStatus
    requires empty { handle.old.value ≡ None }
    ensures made { MakesNumbered None profile result handle.new.value }
    ensures valid { HoldsValid handle.new.value }
{
    let controller = match Controller::new(alloc, profile) {
        Ok(controller) => controller,
        Err(refusal) => return refusal,
    };
    controller.keep();
    match Box::new(alloc, controller) {
        Ok(place) => {
            handle.put(Loose::of(place));
            CallStatus::Done
        }
        Err(_) => CallStatus::NoMemory,
    }
}
