//! Names written out, without pointers.
ghost use Rattle.std.specs.Prelude.{◌≡◌, ◌≤◌, ◌++◌, ◌∷◌, ◌<◌, ℕ, length, take, OnOk, OnErr};
ghost use Rattle.dns_core.specs.NameText.{wire_length};
ghost use Rattle.wire_names.specs.Names.{written};

use dns_core::{Label, Letter, Name, NoMemory};

/// How many bytes a name has that is written out.
pub fn name_length(name: &Name) -> usize
    ensures sum { result ≡ wire_length name.now.labels }
    ensures few { result ≤ 255 }
{
    let labels = name.labels();
    let mut length = 1;
    for label in labels {
        length += label.letters().len() + 1;
    }
    length
}

fn write_letters(out: &mut Vec<u8>, letters: &[Letter]) -> Result<(), NoMemory>
    ensures ok { OnOk result (out.new.items ≡ out.old.items ++ letters.now) }
    ensures err { OnErr result (take (length out.old.items) out.new.items ≡ out.old.items) }
{
    for letter in letters {
        out.push(letter.byte())?;
    }
    Ok(())
}

fn write_label(out: &mut Vec<u8>, label: &Label) -> Result<(), NoMemory>
    requires { length label.now < 64 }
    ensures ok { OnOk result (out.new.items ≡ out.old.items ++ length label.now ∷ label.now) }
    ensures err { OnErr result (take (length out.old.items) out.new.items ≡ out.old.items) }
{
    let letters = label.letters();
    out.push(letters.len() as u8)?;
    write_letters(out, letters)
}

/// Appends a name written out. After an error what was there before still stands there.
pub fn write_name(out: &mut Vec<u8>, name: &Name) -> Result<(), NoMemory>
    ensures ok { OnOk result (out.new.items ≡ out.old.items ++ written name.now.labels) }
    ensures err { OnErr result (take (length out.old.items) out.new.items ≡ out.old.items) }
{
    let labels = name.labels();
    for label in labels {
        write_label(out, label)?;
    }
    out.push(0)?;
    Ok(())
}
