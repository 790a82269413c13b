// Writing a call.
ghost use Rattle.std.specs.Prelude.{◌≡◌};
ghost use Rattle.calls.specs.Meaning.{call_of};
ghost use Rattle.encode.specs.Put.{put_call};

use crate::length::digits;
use crate::parts::put;
use calls::Call;

// A call's bytes over the front of `out`, and how many they are, if there is room. Garbled has no bytes.
pub fn write_call(call: &Call<'_>, out: &mut [u8]) -> Option<usize>
    ensures { (result, out.new) ≡ put_call (call_of call.now) out.old }
{
    let kind = [u8::from(call.kind()?)];
    match call {
        Call::Find(dir, name)
        | Call::MakeFile(dir, name)
        | Call::MakeDir(dir, name)
        | Call::Remove(dir, name) => put(&[&kind, &dir.to_le_bytes(), name], out),
        Call::Rename(dir, name, new_dir, new_name) => {
            let length = digits(name.len());
            put(
                &[
                    &kind,
                    &dir.to_le_bytes(),
                    &new_dir.to_le_bytes(),
                    &length,
                    name,
                    new_name,
                ],
                out,
            )
        }
        Call::Size(file) | Call::SyncFile(file) => put(&[&kind, &file.to_le_bytes()], out),
        Call::List(x, y) | Call::Read(x, y) | Call::Resize(x, y) => {
            put(&[&kind, &x.to_le_bytes(), &y.to_le_bytes()], out)
        }
        Call::Write(file, at, block) => {
            put(&[&kind, &file.to_le_bytes(), &at.to_le_bytes(), block], out)
        }
        Call::SyncTree => put(&[&kind], out),
        Call::Garbled(_) => None,
    }
}
