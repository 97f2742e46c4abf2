/// A rule of the profile of HTTP that is served, in the order in which they are looked at.
#[derive(Clone, Copy, Debug, PartialEq, Eq)]
pub enum HttpRule {
    /// The head can't be completed, or the input ends inside it.
    H1 = 1,
    /// The head has more than 64 fields, or isn't whole in 16,384 bytes.
    H2 = 2,
    /// The target is over 2,048 bytes.
    H3 = 3,
    /// The path has no route.
    H4 = 4,
    /// The method isn't POST.
    H5 = 5,
    /// A Transfer-Encoding is there.
    H6 = 6,
    /// No Content-Length is there.
    H7 = 7,
    /// Content-Length stands twice or isn't digits.
    H8 = 8,
    /// Content-Length is over 65,536.
    H9 = 9,
    /// The one Content-Type isn't that of the route, or a Content-Encoding isn't `identity`.
    H10 = 10,
    /// The input ends inside the body.
    H11 = 11,
}
