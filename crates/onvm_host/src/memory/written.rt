//! Files that were written to a host in memory.
ghost use Rattle.std.specs.Prelude.{◌≡◌, option_copied};
ghost use Rattle.onvm_host.specs.Files.{file_of, put_file};
ghost use Rattle.onvm_host.specs.Written.{written_entries};

use onvm_base::Text;
use std::mem;

/// Files by name, the last written first.
#[derive(Drop)]
pub(super) enum Written {
    End,
    More {
        name: Text,
        bytes: Text,
        rest: Box<Written>,
    },
}

impl Written {
    /// The bytes under a name.
    pub(super) fn find(&self, name: &[u8]) -> Option<&[u8]>
        ensures { option_copied result ≡ file_of name.now (written_entries self.now) }
    {
        match self {
            Written::End => None,
            Written::More {
                name: first,
                bytes,
                rest,
            } => {
                if first.as_slice() == name {
                    Some(bytes.as_slice())
                } else {
                    rest.find(name)
                }
            }
        }
    }

    /// Puts a file before the others, in the node that is handed in. It takes no memory.
    pub(super) fn put(&mut self, name: Text, bytes: Text, mut node: Box<Written>)
        ensures { written_entries self.new ≡ put_file name bytes (written_entries self.old) }
    {
        *node = mem::replace(self, Written::End);
        *self = Written::More {
            name,
            bytes,
            rest: node,
        };
    }
}
