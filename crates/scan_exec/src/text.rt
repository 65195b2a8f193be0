// The text of an executable's header.
ghost use Rattle.std.specs.Prelude.{◌≡◌, ◌==◌, codes, if◌then◌else◌, IfOk};
ghost use Rattle.scan_exec.specs.Exec as spec;
ghost use Rattle.scan_exec.specs.Headers.{header_of, IsKnown};

use crate::Exec;
use byte_kit::{Bytes, NoMemory};
use std::alloc::Global;
use std::fmt::Write;

// The most bytes that a text has. With room for them it is made by one allocation.
const TEXT_MOST: usize = "ELF class=64 order=little type=65535 machine=65535".len();

/// The text of a header's feature, such as `ELF class=64 order=little type=2 machine=62` or
/// `PE machine=332 sections=3 time=1`, as `header_of` of `specs/Headers.antt` has it. It asks that
/// class and byte order are each 1 or 2. Its one refusal is want of memory.
#[tactic(auto, unfolding(crate::specs::Headers::header_of))]
pub fn exec_text(alloc: Global, exec: &Exec) -> Result<Bytes, NoMemory>
    requires known { IsKnown exec.now }
    ensures { IfOk result (λ text. text ≡ (header_of exec.now).text) }
{
    match *exec {
        Exec::Elf {
            class,
            order,
            kind,
            machine,
        } => elf_text(alloc, class, order, kind, machine),
        Exec::Pe {
            machine,
            sections,
            time,
        } => pe_text(alloc, machine, sections, time),
    }
}

fn elf_text(alloc: Global, class: u8, order: u8, kind: u16, machine: u16) -> Result<Bytes, NoMemory>
    ensures { IfOk result (λ text. text ≡ spec.elf_text class order kind machine) }
{
    let bits = class_name(class);
    let order = order_name(order);
    let mut text = String::with_capacity(alloc, TEXT_MOST)?;
    write!(
        text,
        "ELF class={bits} order={order} type={kind} machine={machine}"
    )?;
    Ok(Bytes::from(text.into_bytes()))
}

fn pe_text(alloc: Global, machine: u16, sections: u16, time: u32) -> Result<Bytes, NoMemory>
    ensures { IfOk result (λ text. text ≡ spec.pe_text machine sections time) }
{
    let mut text = String::with_capacity(alloc, TEXT_MOST)?;
    write!(text, "PE machine={machine} sections={sections} time={time}")?;
    Ok(Bytes::from(text.into_bytes()))
}

// How many bits the files of a class are made for.
fn class_name(class: u8) -> &'static str
    ensures { result.now ≡ (if class == 1 then codes "32" else codes "64") }
{
    if class == 1 { "32" } else { "64" }
}

// Which byte of a number comes first.
fn order_name(order: u8) -> &'static str
    ensures { result.now ≡ (if order == 1 then codes "little" else codes "big") }
{
    if order == 1 { "little" } else { "big" }
}
