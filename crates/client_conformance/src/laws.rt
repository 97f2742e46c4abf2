ghost use Rattle.std.specs.Prelude.{◌≡◌, ◌≤◌, ◌++◌, None, Some, Ok, ℕ, List, length, true};
ghost use Rattle.exchange_form.specs.Forms.{form_of, object_of};
ghost use Rattle.http_front.specs.Messages.{Message, IsMessage, message_text, Asks};
ghost use Rattle.http_front.specs.declared.incoming.Incoming.{Incoming};
ghost use Rattle.client_proto.specs.ClientFile.{client_of};
ghost use Rattle.client_proto.specs.Replies.{is_token};
ghost use Rattle.client_proto.specs.Requests.{account_body, account_text, exchange_form, exchange_text};
ghost use Rattle.client_proto.specs.Subjects.{is_subject};
ghost use Rattle.client_proto.specs.declared.config.ClientConfig.{ClientConfig};
ghost use Rattle.client_proto.specs.declared.config.Url.{Url};
ghost use Rattle.wif_base.specs.declared.route.Route.TheVariants.{Token, Generate};
ghost use Rattle.client_conformance.specs.Meant.{HasUrls, IsNamed, IsRequest, LeadsTo, SaysExchange, account_asked, last_request};

/// A law: a client that a file says has a provider and a type of their forms, and its URLs are of theirs.
pub fn a_client_file_has_its_forms()
    ensures { (bytes : List ℕ) (config : ClientConfig) → client_of bytes ≡ Ok config → IsNamed config × HasUrls config }
{}

/// A law: where a client's token URL leads to the token exchange and the form has at most 65,536 bytes, the bytes that the client sends for
/// a subject token are one request of the service: the exchange, without a bearer, and the connection ends behind it. Its body is a form
/// that breaks no rule and has the client's provider, this subject token and its type, and asks for an access token of every permission.
pub fn an_exchange_is_asked_as_meant()
    ensures request { (config : ClientConfig) (subject : List ℕ) → LeadsTo config.token Token
        → length (exchange_form config subject) ≤ 65536
        → IsRequest (exchange_text config subject) (last_request Token None (exchange_form config subject)) }
    ensures form { (config : ClientConfig) (subject : List ℕ) → IsNamed config → is_subject subject ≡ true
        → SaysExchange (form_of (exchange_form config subject)) config subject }
{}

/// A law: where the URL of the account service leads to the tokens of an account, the bytes that the client sends with an access token are
/// one request of the service: for a token of that account, with the access token as bearer, and the connection ends behind it. Its body
/// is an object that asks for one hour and every permission.
pub fn an_account_is_asked_as_meant()
    ensures request { (url : Url) (account token : List ℕ) → LeadsTo url (Generate account) → is_token token ≡ true
        → IsRequest (account_text url token) (last_request (Generate account) (Some token) account_body) }
    ensures body { object_of account_body ≡ Some account_asked }
{}

/// A law: a reader of the service finds at the front of the bytes that it gets exactly the request that was sent, and behind it the rest.
pub fn a_request_is_read_as_it_was_sent()
    ensures { (sent rest behind : List ℕ) (incoming : Incoming) (message : Message) → IsRequest sent incoming → IsMessage message
        → sent ++ rest ≡ message_text message ++ behind → Asks message incoming × (behind ≡ rest) }
{}
