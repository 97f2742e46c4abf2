ghost use Rattle.std.specs.Prelude.{◌≡◌, ◌≤◌, Some, IsUtf8};
ghost use Rattle.serde_json.specs.Data.{Data, depth};
ghost use Rattle.serde_json.specs.Read.{max_depth};
ghost use Rattle.serde_json.specs.Written.{compact_text};
ghost use Rattle.json_text.specs.Document.{document};
ghost use Rattle.json_text.specs.Clean.{IsClean, HasUtf8};

/// A law: the compact text of a tree without floats is UTF-8 and reads back as that tree, so no two
/// such trees have one text.
pub fn compact_text_reads_back()
    ensures utf8 { (d : Data) → IsClean d → HasUtf8 d → IsUtf8 (compact_text d) }
    ensures reads_back { (d : Data) → IsClean d → HasUtf8 d → depth d ≤ max_depth → document (compact_text d) ≡ Some d }
    ensures one_tree { (d e : Data) → IsClean d → IsClean e → depth d ≤ max_depth → depth e ≤ max_depth
        → compact_text d ≡ compact_text e → d ≡ e }
{}
