// A sink for what is written.
ghost use Rattle.std.specs.Prelude.{◌<◌, ◌^◌};

/// The sink did not take all the bytes.
#[derive(Clone, Copy, Debug, PartialEq, Eq)]
pub struct SinkFailed;

/// A sink for what is written.
pub trait Sink {
    ghost use Rattle.dp_io.specs.Sink.{SinkView, Puts};

    /// The number of puts, of their bytes and of those that failed, their texts and, where the sink
    /// tells that, the bytes that it has and whether the next put fails.
    ghost view: { Self → SinkView };

    /// Appends all the bytes, or fails and appends a prefix of them.
    ///
    /// The put and its bytes are counted, and its text is kept, in either case. It answers `SinkFailed` exactly
    /// where the count of faults rose; where the output is told, exactly where this put was to fail.
    fn put(&mut self, bytes: &[u8]) -> Result<(), SinkFailed>
        requires { (view self.old).puts < 2 ^ 63 }
        ensures { Puts (view self.old) (view self.new) bytes.now result };
}
