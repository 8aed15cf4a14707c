//! The layout of the tests.
ghost use Rattle.std.specs.Prelude.{◌≡◌, replicate};
ghost use Rattle.onvm_core.specs.Layouts.{IsLayout};

use onvm_core::Layout;

/// One port with four buffers, one role of each other kind, one function.
pub fn small() -> Layout
    ensures ranges { IsLayout result }
    ensures is { result ≡ record {
      ports = 1;
      transmit = 1;
      cores = 1;
      functions = 1;
      buffers = 4;
      ring = 8;
      output = 8;
      core_of = replicate 32 0;
    } }
{
    Layout {
        ports: 1,
        transmit: 1,
        cores: 1,
        functions: 1,
        buffers: 4,
        ring: 8,
        output: 8,
        core_of: [0; 32],
    }
}
