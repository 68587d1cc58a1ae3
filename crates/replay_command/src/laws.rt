//! Laws of transcripts and of what they print, for all lines.

ghost use Rattle.replay_command.specs.Cuts.{LinkLinesCanBeCut};
ghost use Rattle.replay_command.specs.GeneratorLaws.{GeneratedLinesAreSound};
ghost use Rattle.replay_command.specs.Recorded.{RecordsAreReplayed};

/// A `link` line may be cut in two of the same moment: the outputs are the same, and line numbers alone differ.
pub fn link_lines_can_be_cut()
    ensures { LinkLinesCanBeCut }
{}

/// No line of a generated transcript is bad.
pub fn generated_lines_are_sound()
    ensures { GeneratedLinesAreSound }
{}

/// A replay of the record of a run prints what went out in it for each input.
pub fn records_are_replayed()
    ensures { RecordsAreReplayed }
{
    agent_core::idle_inputs_change_no_output();
    transcript::records_are_transcripts();
}
