//! The file's header, and the rules E1 to E12.

ghost use Rattle.std.specs.Prelude.{◌≡◌, true, OnOk};
ghost use Rattle.std.specs.Result.{result_err};
ghost use Rattle.elf_objects.specs.Breaks.{first_broken};
ghost use Rattle.elf_objects.specs.Section.{HasHeaders, name_section, is_of_kind};
ghost use Rattle.elf_objects.specs.Numbers.{sht_strtab};
ghost use Rattle.elf_objects.specs.Header.{header_rules};

use crate::bad_elf::{BadElf, broken_at, check_rule};
use crate::fields::{u16_at, u32_at, u64_at};
use crate::section::{RESERVED, is_of_kind, name_section, passes_end};
use crate::section_kind::STRTAB;

/// The bytes 0x7f `E` `L` `F`, as the number that they are.
const MAGIC: u32 = 0x464c_457f;

/// Objects of 64 bits (ELFCLASS64).
const CLASS_64: u8 = 2;

/// Numbers with the least byte first (ELFDATA2LSB).
const LITTLE_ENDIAN: u8 = 1;

/// The one version of the format (EV_CURRENT).
const VERSION: u8 = 1;

/// Files that are still to be linked or loaded (ET_REL).
const RELOCATABLE: u16 = 1;

/// The machine that BPF is (EM_BPF).
const BPF: u16 = 247;

pub(crate) fn check_header(file: &[u8]) -> Result<(), BadElf>
    ensures rules { result_err result ≡ first_broken 1 (header_rules file.now) }
    ensures headers { OnOk result (HasHeaders file.now) }
    ensures names { OnOk result (is_of_kind file.now sht_strtab (name_section file.now) ≡ true) }
{
    check_rule(1, broken_at(0, file.len() < 64))?;
    check_rule(2, broken_at(0, u32_at(file, 0) != MAGIC))?;
    check_rule(3, broken_at(4, file[4] != CLASS_64))?;
    check_rule(4, broken_at(5, file[5] != LITTLE_ENDIAN))?;
    check_rule(5, broken_at(6, file[6] != VERSION))?;
    check_rule(6, broken_at(16, u16_at(file, 16) != RELOCATABLE))?;
    check_rule(7, broken_at(18, u16_at(file, 18) != BPF))?;
    check_rule(8, broken_at(20, u32_at(file, 20) != u32::from(VERSION)))?;
    check_rule(9, broken_at(58, u16_at(file, 58) != 64))?;
    let count = u16_at(file, 60);
    check_rule(10, broken_at(60, count == 0 || RESERVED <= count))?;
    let past_end = passes_end(file.len(), u64_at(file, 40), 64 * u64::from(count));
    check_rule(11, broken_at(40, past_end))?;
    let has_names = is_of_kind(file, STRTAB, name_section(file));
    check_rule(12, broken_at(62, !has_names))
}
