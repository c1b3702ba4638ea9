//! The laws of shapes. The functions do nothing: each states a law in its contract.
ghost use Rattle.std.specs.Prelude.{◌≡◌, ◌↔◌, Ok};
ghost use Rattle.dynamo_value.specs.Av.{Av};
ghost use Rattle.dynamo_ser.specs.Datum.{Datum, Pairs, map};
ghost use Rattle.dynamo_ser.specs.Key.{key_text};
ghost use Rattle.dynamo_write.specs.Written.{written};
ghost use Rattle.dynamo_de.specs.Source.{Source};
ghost use Rattle.dynamo_shape.specs.Clear.{Clear, IsKey, NearlyClear};
ghost use Rattle.dynamo_shape.specs.Conforms.{conforms};
ghost use Rattle.dynamo_shape.specs.Kept.{kept};
ghost use Rattle.dynamo_shape.specs.ReadsBack.{ReadsBack, ReadsExactly, KeepsCount, IsDetermined};
ghost use Rattle.dynamo_shape.specs.ReadsBack.{WalksAgree};
ghost use Rattle.dynamo_shape.specs.Same.{Same};
ghost use Rattle.dynamo_shape.specs.Shape as shape;
ghost use Rattle.dynamo_shape.specs.Shape.{Shape};

/// What was written reads back.
///
/// If a shape is nearly clear, each datum that conforms to it is written, and reading that returns
/// the part of the datum that is kept, and nothing else. Two such data are written in the same way
/// exactly if their kept parts are the same. If the shape is clear, all of a datum is kept.
pub fn read_back()
    ensures nearly { (s : Shape) (d : Datum) → NearlyClear s → conforms s d → ReadsBack s d }
    ensures exactly { (s : Shape) (d : Datum) (a : Av) → NearlyClear s → conforms s d
        → written d ≡ Ok a
        → ReadsExactly s d a }
    ensures clear { (s : Shape) (d : Datum) → Clear s → conforms s d → kept d ≡ d }
    ensures same { (s : Shape) (d e : Datum) → NearlyClear s → conforms s d → conforms s e
        → (written d ≡ written e ↔ Same (kept d) (kept e)) }
{}

/// Different keys of a clear key shape are written as different strings, so a map is written with
/// as many entries as it has.
pub fn key_texts()
    ensures keys { (k : Shape) (l m : Datum) → IsKey k → conforms k l → conforms k m
        → key_text l ≡ key_text m
        → l ≡ m }
    ensures entries { (k s : Shape) (ps : Pairs) → NearlyClear (shape.map k s)
        → conforms (shape.map k s) (map ps)
        → KeepsCount ps }
{}

/// Whether a read succeeds, and which data it returns, don't depend on the order in which a hashed
/// map is walked.
pub fn walks()
    ensures { (s : Shape) (source : Source) → WalksAgree s source }
{}

/// Reading has one result: one fault, or data that are all the same. Only the messages of errors
/// may differ.
pub fn determined()
    ensures { (s : Shape) (source : Source) → IsDetermined s source }
{}
