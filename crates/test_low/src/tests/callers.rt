//! Facts of images and of the executor that a caller in another crate can prove. Each is the contract of a
//! function.
ghost use Rattle.std.specs.Prelude.{◌≡◌, ◌/◌, true, false, [], length, slice_get, IfSome, IfOk, IsSome};
ghost use Rattle.std.specs.List.{concat};
ghost use Rattle.std.specs.Simd.{first_chunks};
ghost use Rattle.uda_image.specs.Image.{blocks_of};
ghost use Rattle.uda_disk.specs.Units.{AreWellFormed, is_faithful, is_infallible};
ghost use Rattle.uda_exec.specs.Commands.{is_transfer, memory_write_length};
ghost use Rattle.uda_exec.specs.Effect.{passes_checks};
ghost use Rattle.uda_exec.specs.Execution.{Executes, world_of};

use std::alloc::Global;
use std::test::Fail;
use uda_exec::Exec;
use uda_image::{BlockStore, Drive, ImageError, MemImage};
use uda_mem::HostMemory;
use uda_packet::{Command, End, Op};

// Returns the bytes of an image, which are its blocks, one after another.
fn bytes_of(image: &MemImage) -> &[u8]
    ensures { result.now ≡ concat (blocks_of image.now) }
{
    image.bytes()
}

// Makes an image of bytes, which are then its blocks.
fn image_of(alloc: Global, bytes: &[u8]) -> Result<MemImage, ImageError>
    ensures { IfOk result (λ image.
        blocks_of image ≡ first_chunks 512 (length bytes.now / 512) bytes.now) }
{
    MemImage::from_bytes(alloc, bytes)
}

// Executes a command that is the only pending one.
fn execute_alone<S: BlockStore>(
    exec: &mut Exec<S>,
    memory: &mut HostMemory,
    command: Command,
) -> Option<End>
    requires { exec.old.pending ≡ [] }
    ensures some { IsSome result }
    ensures idle { exec.new.pending ≡ [] }
    ensures four_units { length exec.new.units ≡ 4 }
    ensures well_formed { AreWellFormed exec.new.units }
    ensures executes { IfSome result (λ end.
        Executes command exec.old.units memory.old end exec.new.units memory.new) }
{
    exec.accept(command);
    exec.execute_one(memory)
}

// Executes a command that is not a Read, or is a Read of nothing. Memory is unchanged.
fn memory_kept<S: BlockStore>(
    exec: &mut Exec<S>,
    memory: &mut HostMemory,
    command: Command,
) -> Option<End>
    requires alone { exec.old.pending ≡ [] }
    requires no_read { memory_write_length command.op ≡ 0 }
    ensures kept { memory.new ≡ memory.old }
    ensures idle { exec.new.pending ≡ [] }
{
    execute_alone(exec, memory, command)
}

// Executes a command that doesn't act on its unit, such as one that is rejected. The units are unchanged.
fn units_kept<S: BlockStore>(
    exec: &mut Exec<S>,
    memory: &mut HostMemory,
    command: Command,
) -> Option<End>
    requires alone { exec.old.pending ≡ [] }
    requires refused { passes_checks command (world_of exec.old.units memory.old) ≡ false }
    ensures kept { exec.new.units ≡ exec.old.units }
    ensures idle { exec.new.pending ≡ [] }
{
    execute_alone(exec, memory, command)
}

// Executes a transfer that passes its checks. It succeeds if its unit's store is faithful and never fails.
fn transferred<S: BlockStore>(
    exec: &mut Exec<S>,
    memory: &mut HostMemory,
    command: Command,
) -> Option<End>
    requires alone { exec.old.pending ≡ [] }
    requires transfer { is_transfer command.op ≡ true }
    requires faithful { is_faithful (slice_get exec.old.units command.unit) ≡ true }
    requires infallible { is_infallible (slice_get exec.old.units command.unit) ≡ true }
    requires passes { passes_checks command (world_of exec.old.units memory.old) ≡ true }
    ensures success { IfSome result (λ end. end.status ≡ 0) }
    ensures idle { exec.new.pending ≡ [] }
{
    execute_alone(exec, memory, command)
}

// Executes any pending command. Memory keeps its length. A unit whose store is faithful and never fails
// stays so.
fn execute_any<S: BlockStore>(exec: &mut Exec<S>, memory: &mut HostMemory) -> Option<End>
    requires faithful { is_faithful (slice_get exec.old.units 0) ≡ true }
    requires infallible { is_infallible (slice_get exec.old.units 0) ≡ true }
    ensures length { length memory.new ≡ length memory.old }
    ensures faithful { is_faithful (slice_get exec.new.units 0) ≡ true }
    ensures infallible { is_infallible (slice_get exec.new.units 0) ≡ true }
{
    exec.execute_one(memory)
}

// Makes an executor of a unit over an image in memory, which is faithful and never fails.
fn executor_of(store: MemImage) -> Exec<MemImage>
    ensures idle { result.pending ≡ [] }
    ensures four_units { length result.units ≡ 4 }
    ensures well_formed { AreWellFormed result.units }
    ensures faithful { is_faithful (slice_get result.units 0) ≡ true }
    ensures infallible { is_infallible (slice_get result.units 0) ≡ true }
{
    Exec::new([Some(Drive { store, hard: false }), None, None, None])
}

// Resets an executor. It has four units, and those with faithful stores are well formed.
fn reset_any<S: BlockStore>(exec: &mut Exec<S>)
    ensures four_units { length exec.new.units ≡ 4 }
    ensures well_formed { AreWellFormed exec.new.units }
{
    exec.reset();
}

#[test]
fn commands_alone(rt: HostRuntime) -> Result<(), Fail> {
    let image = image_of(rt.alloc(), &[0x11; 1024])?;
    assert_eq!(rt; bytes_of(&image), [0x11; 1024].as_slice());
    let mut exec = executor_of(image);
    let mut memory = HostMemory::new(rt.alloc(), 4096)?;
    let controller = units_kept(&mut exec, &mut memory, command(1, Op::Controller));
    assert_eq!(rt; controller.map(|end| end.status), Some(0));
    let online = memory_kept(
        &mut exec,
        &mut memory,
        command(2, Op::Online { soft: None }),
    );
    assert_eq!(rt; online.map(|end| end.status), Some(0));
    let block = Op::Read {
        bytes: 512,
        address: 0x0200,
        lbn: 1,
    };
    let read = execute_alone(&mut exec, &mut memory, command(3, block));
    assert_eq!(rt; read.map(|end| end.status), Some(0));
    assert_eq!(rt; memory.window(0x0200, 512), Some([0x11; 512].as_slice()));
    Ok(())
}

#[test]
fn units_that_stay_trusted(rt: HostRuntime) -> Result<(), Fail> {
    let mut exec = executor_of(MemImage::new(rt.alloc(), 2)?);
    let mut memory = HostMemory::new(rt.alloc(), 512)?;
    exec.accept(command(1, Op::Online { soft: None }));
    let online = execute_any(&mut exec, &mut memory);
    assert_eq!(rt; online.map(|end| end.status), Some(0));
    assert_eq!(rt; execute_any(&mut exec, &mut memory), None);
    Ok(())
}

// Returns a command for unit 0.
fn command(reference: u32, op: Op) -> Command
    ensures { result.op ≡ op }
{
    Command {
        reference,
        unit: 0,
        op,
    }
}
