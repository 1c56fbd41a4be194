// Moving the origin, f(Y + c) for f: definitions and laws about calls that there are, and no function. `specs/Origin` is what the end theorem says.

#![tactic(auto)]
