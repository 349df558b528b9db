//! The command `gen`: generates the client files and writes them.
ghost use Rattle.std.specs.Prelude.{◌≡◌, IfOk, OnOk, OnErr, IsTrue, length, string_bytes};
ghost use Rattle.std.specs.List.{list_all};
ghost use Rattle.vz_frame.specs.Fits.{fits_file};
ghost use Rattle.vz_gen.specs.Make.{make};
ghost use Rattle.vz_player.specs.Written.{KeepsAllBut, AreWhole, AreBegun};
ghost use Rattle.vz_outside.specs.Shelved.{Behaves};
ghost use Rattle.vz_rules.specs.Command.{fits_command};
ghost use Rattle.viz_run.specs.Commands.{output_names};
ghost use Rattle.viz_run.specs.Ends.{named_files};
ghost use Rattle.viz_run.specs.Lines.{made_line};
ghost use Rattle.viz_run.specs.Made.{command_of};

use crate::lines::made_text;
use std::alloc::Global;
use vz_frame::ClientFile;
use vz_gen::make;
use vz_outside::{Shelf, ShelfError};
use vz_player::write_file;
use vz_words::MakeWords;

/// Generates the client files, writes them one after the other, and returns the line that reports
/// it.
///
/// The error is `Failed` exactly if a fault was counted, and `Memory` if an allocation failed.
/// After either error some of the files, from the first on, are complete, and the next one has at
/// most a front part of its bytes.
pub fn make_files<F: Shelf>(
    alloc: Global,
    words: &MakeWords<'_>,
    shelf: &mut F,
) -> Result<String, ShelfError>
    requires { IsTrue (fits_command (command_of words.now)) }
    ensures line { IfOk result (λ line. string_bytes line ≡ made_line) }
    ensures whole { OnOk result (AreWhole
        (named_files (output_names (command_of words.now)) (make words.now.rounds))
        (F.shelved shelf.new)) }
    ensures begun { OnErr result (AreBegun
        (named_files (output_names (command_of words.now)) (make words.now.rounds))
        (F.shelved shelf.old) (F.shelved shelf.new)) }
    ensures others { KeepsAllBut (output_names (command_of words.now))
        (F.shelved shelf.old) (F.shelved shelf.new) }
    ensures behaves { Behaves (F.shelved shelf.old) (F.shelved shelf.new) result }
{
    let files = make(alloc, words.rounds)?;
    write_three(alloc, words, files.as_slice(), shelf)?;
    Ok(made_text(alloc)?)
}

/// Writes three files, one after the other. After an error some of them, from the first on, are
/// complete, and the next one has at most a front part of its bytes.
fn write_three<F: Shelf>(
    alloc: Global,
    words: &MakeWords<'_>,
    files: &[ClientFile],
    shelf: &mut F,
) -> Result<(), ShelfError>
    requires command { IsTrue (fits_command (command_of words.now)) }
    requires three { length files.now ≡ 3 }
    requires fit { IsTrue (list_all fits_file files.now) }
    ensures whole { OnOk result (AreWhole
        (named_files (output_names (command_of words.now)) files.now) (F.shelved shelf.new)) }
    ensures begun { OnErr result (AreBegun
        (named_files (output_names (command_of words.now)) files.now)
        (F.shelved shelf.old) (F.shelved shelf.new)) }
    ensures others { KeepsAllBut (output_names (command_of words.now))
        (F.shelved shelf.old) (F.shelved shelf.new) }
    ensures behaves { Behaves (F.shelved shelf.old) (F.shelved shelf.new) result }
{
    write_file(alloc, shelf, words.first, &files[0])?;
    write_file(alloc, shelf, words.second, &files[1])?;
    write_file(alloc, shelf, words.third, &files[2])?;
    Ok(())
}
