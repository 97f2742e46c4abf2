ghost use Rattle.std.specs.Prelude.{◌≡◌, ◌↔◌, ◌<◌, ◌^◌, ℕ, List, length, Some};
ghost use Rattle.client_link.specs.declared.target.Target.{Target};
ghost use Rattle.client_proto.specs.Replies.{IsReply, IsReading};
ghost use Rattle.client_proto.specs.Urls.{IsUrl, url_of, url_text};
ghost use Rattle.client_proto.specs.declared.config.Url.{Url};
ghost use Rattle.client_proto.specs.declared.reply.ReadReply.{ReadReply};

/// A law: a text is a URL exactly where it is that URL's parts joined, each of its form.
pub fn urls_are_their_parts()
    ensures { (text : List ℕ) (url : Url) → (url_of text ≡ Some url) ↔ ((text ≡ url_text url) × IsUrl url) }
{}

/// A law: a reply has one status and one body, and says one thing.
pub fn a_reply_is_read_in_one_way()
    ensures one_reply { (bytes : List ℕ) (status other : ℕ) (body rest : List ℕ)
        → length bytes < 2 ^ 64 → IsReply bytes status body → IsReply bytes other rest → (status ≡ other) × (body ≡ rest) }
    ensures one_reading { (target : Target) (asked : ℕ) (bytes : List ℕ) (said other : ReadReply)
        → length bytes < 2 ^ 64 → IsReading target asked bytes said → IsReading target asked bytes other → said ≡ other }
{}
